//! The calls of a map with an ordered left side.
use crate::course::{BothEnds, follow};
use crate::forward::forward;
use crate::kind::{self, LeftIndex, Words, say};
use crate::request::Request;
use crate::word::Word;
use bimap::btree::Count;
use bimap_index::{CopiedIndex, HashIndex};
use bimap_tree::Ordered;
use std::alloc::AllocError;
use std::hash::{BuildHasher, FoldHasher, Hash, Hasher};
use std::ops::RangeBounds;
use test_support::Counter;

fn hash_of<J: CopiedIndex<Word> + Drop>(bimap: &Words<Ordered, J>) -> u64 {
    let mut state = FoldHasher::default();
    bimap.hash(&mut state);
    state.finish()
}

fn compare<J: CopiedIndex<Word> + Drop>(
    bimap: &Words<Ordered, J>,
    other: &Words<Ordered, J>,
    call: &str,
    said: &mut String,
) -> Result<bool, AllocError> {
    match call {
        "eq" => say(bimap == other, said),
        "partial_cmp" => say(bimap.partial_cmp(other), said),
        "cmp" => say(bimap.cmp(other), said),
        "hash" => say(hash_of(bimap) == hash_of(other), said),
        _ => Ok(false),
    }
}

fn walk<J: CopiedIndex<Word> + Drop>(
    bimap: &Words<Ordered, J>,
    request: &Request<'_>,
    said: &mut String,
) -> Result<bool, AllocError> {
    let steps = request.steps.as_slice();
    match request.call {
        "iter" => follow(BothEnds(bimap.iter()), steps, said),
        "left_values" => follow(BothEnds(bimap.left_values()), steps, said),
        "left_range_between" => {
            let (start, end) = (request.range.start_bound(), request.range.end_bound());
            follow(BothEnds(bimap.left_range_between(start, end)), steps, said)
        }
        "left_range" => match forward(request.range) {
            Some(range) => follow(BothEnds(bimap.left_range(range)), steps, said),
            None => {
                write!(said, "runs backwards")?;
                Ok(true)
            }
        },
        _ => Ok(false),
    }
}

fn end<J: CopiedIndex<Word> + Drop>(
    bimap: &mut Words<Ordered, J>,
    request: &Request<'_>,
    said: &mut String,
) -> Result<bool, AllocError> {
    match request.call {
        "first_by_left" => say(bimap.first_by_left(), said),
        "last_by_left" => say(bimap.last_by_left(), said),
        "pop_first_by_left" => say(bimap.pop_first_by_left(), said),
        "pop_last_by_left" => say(bimap.pop_last_by_left(), said),
        "pair_at_left_rank" => say(bimap.pair_at_left_rank(request.number), said),
        "left_rank" => say(bimap.left_rank(&request.first), said),
        _ => Ok(false),
    }
}

impl LeftIndex for Ordered {
    fn call_left<J: CopiedIndex<Word> + Drop>(
        bimap: &mut Words<Ordered, J>,
        other: &mut Words<Ordered, J>,
        request: &Request<'_>,
        said: &mut String,
    ) -> Result<bool, AllocError> {
        match request.call {
            "into_iter" => match bimap.clone() {
                Ok(copy) => follow(BothEnds(copy.into_iter()), request.steps.as_slice(), said),
                Err(_) => Err(AllocError),
            },
            call => Ok(
                walk(bimap, request, said)?
                    || end(bimap, request, said)?
                    || compare(bimap, other, call, said)?
                    || kind::call(bimap, other, request, said)?,
            ),
        }
    }

    // The iteration goes in ascending order of the lefts.
    fn right_values<RS: BuildHasher>(
        bimap: &Words<Ordered, HashIndex<RS>>,
        request: &Request<'_>,
        said: &mut String,
    ) -> Result<bool, AllocError> {
        match request.call {
            "right_values" => follow(
                BothEnds(bimap.right_values()),
                request.steps.as_slice(),
                said,
            ),
            _ => Ok(false),
        }
    }

    fn count_left<J: CopiedIndex<Word> + Drop>(
        bimap: &mut Words<Ordered, J>,
        request: &Request<'_>,
        meter: &mut Counter<Count>,
        said: &mut String,
    ) -> Result<bool, AllocError> {
        let (number, word) = (request.number, &request.first);
        match request.call {
            "first_by_left" => say(bimap.first_by_left_metered(meter), said),
            "last_by_left" => say(bimap.last_by_left_metered(meter), said),
            "pop_first_by_left" => say(bimap.pop_first_by_left_metered(meter), said),
            "pop_last_by_left" => say(bimap.pop_last_by_left_metered(meter), said),
            "pair_at_left_rank" => say(bimap.pair_at_left_rank_metered(number, meter), said),
            "left_rank" => say(bimap.left_rank_metered(word, meter), said),
            _ => Ok(false),
        }
    }
}
