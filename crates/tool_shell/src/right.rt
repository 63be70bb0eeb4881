//! The calls of a right side, ordered or hashed.
use crate::course::{BothEnds, follow};
use crate::forward::forward;
use crate::kind::{LeftIndex, RightIndex, Words, say};
use crate::request::Request;
use crate::word::Word;
use bimap::btree::Count;
use bimap_index::{CopiedIndex, HashIndex};
use bimap_tree::Ordered;
use std::alloc::AllocError;
use std::hash::BuildHasher;
use std::ops::RangeBounds;
use test_support::Counter;

fn walk<I: CopiedIndex<Word> + Drop>(
    bimap: &Words<I, Ordered>,
    request: &Request<'_>,
    said: &mut String,
) -> Result<bool, AllocError> {
    let steps = request.steps.as_slice();
    match request.call {
        "right_values" => follow(BothEnds(bimap.right_values()), steps, said),
        "right_range_between" => {
            let (start, end) = (request.range.start_bound(), request.range.end_bound());
            follow(BothEnds(bimap.right_range_between(start, end)), steps, said)
        }
        "right_range" => match forward(request.range) {
            Some(range) => follow(BothEnds(bimap.right_range(range)), steps, said),
            None => {
                write!(said, "runs backwards")?;
                Ok(true)
            }
        },
        _ => Ok(false),
    }
}

fn end<I: CopiedIndex<Word> + Drop>(
    bimap: &mut Words<I, Ordered>,
    request: &Request<'_>,
    said: &mut String,
) -> Result<bool, AllocError> {
    match request.call {
        "first_by_right" => say(bimap.first_by_right(), said),
        "last_by_right" => say(bimap.last_by_right(), said),
        "pop_first_by_right" => say(bimap.pop_first_by_right(), said),
        "pop_last_by_right" => say(bimap.pop_last_by_right(), said),
        "pair_at_right_rank" => say(bimap.pair_at_right_rank(request.number), said),
        "right_rank" => say(bimap.right_rank(&request.first), said),
        _ => Ok(false),
    }
}

impl<I: LeftIndex> RightIndex<I> for Ordered {
    fn call_right(
        bimap: &mut Words<I, Ordered>,
        request: &Request<'_>,
        said: &mut String,
    ) -> Result<bool, AllocError> {
        Ok(walk(bimap, request, said)? || end(bimap, request, said)?)
    }

    fn count_right(
        bimap: &mut Words<I, Ordered>,
        request: &Request<'_>,
        meter: &mut Counter<Count>,
        said: &mut String,
    ) -> Result<bool, AllocError> {
        let (number, word) = (request.number, &request.first);
        match request.call {
            "first_by_right" => say(bimap.first_by_right_metered(meter), said),
            "last_by_right" => say(bimap.last_by_right_metered(meter), said),
            "pop_first_by_right" => say(bimap.pop_first_by_right_metered(meter), said),
            "pop_last_by_right" => say(bimap.pop_last_by_right_metered(meter), said),
            "pair_at_right_rank" => say(bimap.pair_at_right_rank_metered(number, meter), said),
            "right_rank" => say(bimap.right_rank_metered(word, meter), said),
            _ => Ok(false),
        }
    }
}

impl<I: LeftIndex, RS: BuildHasher + Clone + Drop> RightIndex<I> for HashIndex<RS> {
    fn call_right(
        bimap: &mut Words<I, HashIndex<RS>>,
        request: &Request<'_>,
        said: &mut String,
    ) -> Result<bool, AllocError> {
        I::right_values(bimap, request, said)
    }

    fn count_right(
        _bimap: &mut Words<I, HashIndex<RS>>,
        _request: &Request<'_>,
        _meter: &mut Counter<Count>,
        _said: &mut String,
    ) -> Result<bool, AllocError> {
        Ok(false)
    }
}
