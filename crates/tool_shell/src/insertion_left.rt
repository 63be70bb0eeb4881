//! The calls of a map that is iterated in insertion order.
use crate::course::{BothEnds, follow};
use crate::kind::{self, LeftIndex, Words, say};
use crate::request::Request;
use crate::word::Word;
use bimap::btree::Count;
use bimap_index::{CopiedIndex, HashIndex, InsertionOrder};
use std::alloc::AllocError;
use std::hash::BuildHasher;
use test_support::Counter;

fn walk<I: CopiedIndex<Word> + Drop, J: CopiedIndex<Word> + Drop>(
    bimap: &Words<InsertionOrder<I>, J>,
    request: &Request<'_>,
    said: &mut String,
) -> Result<bool, AllocError> {
    let steps = request.steps.as_slice();
    match request.call {
        "iter" => follow(BothEnds(bimap.iter()), steps, said),
        "left_values" => follow(BothEnds(bimap.left_values()), steps, said),
        "into_iter" => match bimap.clone() {
            Ok(copy) => follow(BothEnds(copy.into_iter()), steps, said),
            Err(_) => Err(AllocError),
        },
        _ => Ok(false),
    }
}

fn end<I: CopiedIndex<Word> + Drop, J: CopiedIndex<Word> + Drop>(
    bimap: &mut Words<InsertionOrder<I>, J>,
    request: &Request<'_>,
    said: &mut String,
) -> Result<bool, AllocError> {
    match request.call {
        "first" => say(bimap.first(), said),
        "last" => say(bimap.last(), said),
        "pop_first" => say(bimap.pop_first(), said),
        "pop_last" => say(bimap.pop_last(), said),
        "to_front" => say(bimap.to_front(&request.first), said),
        "to_back" => say(bimap.to_back(&request.first), said),
        _ => Ok(false),
    }
}

impl<I: CopiedIndex<Word> + Drop> LeftIndex for InsertionOrder<I> {
    fn call_left<J: CopiedIndex<Word> + Drop>(
        bimap: &mut Words<InsertionOrder<I>, J>,
        other: &mut Words<InsertionOrder<I>, J>,
        request: &Request<'_>,
        said: &mut String,
    ) -> Result<bool, AllocError> {
        match request.call {
            "eq" => say(*bimap == *other, said),
            _ => Ok(
                walk(bimap, request, said)?
                    || end(bimap, request, said)?
                    || kind::call(bimap, other, request, said)?,
            ),
        }
    }

    // The iteration goes in insertion order.
    fn right_values<RS: BuildHasher>(
        bimap: &Words<InsertionOrder<I>, HashIndex<RS>>,
        request: &Request<'_>,
        said: &mut String,
    ) -> Result<bool, AllocError> {
        match request.call {
            "right_values" => follow(
                BothEnds(bimap.right_values()),
                request.steps.as_slice(),
                said,
            ),
            _ => Ok(false),
        }
    }

    fn count_left<J: CopiedIndex<Word> + Drop>(
        bimap: &mut Words<InsertionOrder<I>, J>,
        request: &Request<'_>,
        meter: &mut Counter<Count>,
        said: &mut String,
    ) -> Result<bool, AllocError> {
        match request.call {
            "pop_first" => say(bimap.pop_first_metered(meter), said),
            "pop_last" => say(bimap.pop_last_metered(meter), said),
            "to_front" => say(bimap.to_front_metered(&request.first, meter), said),
            "to_back" => say(bimap.to_back_metered(&request.first, meter), said),
            _ => Ok(false),
        }
    }
}
