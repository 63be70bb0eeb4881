//! The calls of a map with a hashed left side.
use crate::course::follow;
use crate::kind::{self, LeftIndex, Words, say};
use crate::request::Request;
use crate::word::Word;
use bimap::btree::Count;
use bimap_index::{CopiedIndex, HashIndex};
use std::alloc::AllocError;
use std::hash::BuildHasher;
use test_support::Counter;

// The iterations go in no particular order.
impl<LS: BuildHasher + Clone + Drop> LeftIndex for HashIndex<LS> {
    fn call_left<J: CopiedIndex<Word> + Drop>(
        bimap: &mut Words<HashIndex<LS>, J>,
        other: &mut Words<HashIndex<LS>, J>,
        request: &Request<'_>,
        said: &mut String,
    ) -> Result<bool, AllocError> {
        let steps = request.steps.as_slice();
        match request.call {
            "iter" => follow(bimap.iter(), steps, said),
            "left_values" => follow(bimap.left_values(), steps, said),
            "into_iter" => match bimap.clone() {
                Ok(copy) => follow(copy.into_iter(), steps, said),
                Err(_) => Err(AllocError),
            },
            "eq" => say(bimap == other, said),
            _ => kind::call(bimap, other, request, said),
        }
    }

    fn right_values<RS: BuildHasher>(
        bimap: &Words<HashIndex<LS>, HashIndex<RS>>,
        request: &Request<'_>,
        said: &mut String,
    ) -> Result<bool, AllocError> {
        match request.call {
            "right_values" => follow(bimap.right_values(), request.steps.as_slice(), said),
            _ => Ok(false),
        }
    }

    fn count_left<J: CopiedIndex<Word> + Drop>(
        _bimap: &mut Words<HashIndex<LS>, J>,
        _request: &Request<'_>,
        _meter: &mut Counter<Count>,
        _said: &mut String,
    ) -> Result<bool, AllocError> {
        Ok(false)
    }
}
