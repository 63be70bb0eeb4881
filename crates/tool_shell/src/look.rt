//! The calls that change nothing, on any map.
use crate::kind::say;
use crate::request::Request;
use crate::word::Word;
use bimap::{Bijection, contains_pair};
use std::alloc::AllocError;

/// Makes the call, if it is one of this file. Returns whether it is.
pub fn call<B: Bijection<Word, Word>>(
    bimap: &B,
    request: &Request<'_>,
    said: &mut String,
) -> Result<bool, AllocError> {
    let word = &request.first;
    match request.call {
        "len" => say(bimap.len(), said),
        "is_empty" => say(bimap.is_empty(), said),
        "capacity" => say(bimap.capacity(), said),
        "get_by_left" => say(bimap.get_by_left(word), said),
        "get_by_right" => say(bimap.get_by_right(word), said),
        "contains_left" => say(bimap.contains_left(word), said),
        "contains_right" => say(bimap.contains_right(word), said),
        "contains_pair" => say(contains_pair(bimap, word, &request.second), said),
        "can_undo_insert" => say(bimap.can_undo_insert(word, &request.answer), said),
        _ => Ok(false),
    }
}
