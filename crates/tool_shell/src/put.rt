//! The calls of one pair on any map, except insertions.
use crate::kind::say;
use crate::request::Request;
use crate::word::Word;
use bimap::{
    Bijection, get_by_left_or_insert_with, get_by_right_or_insert, put, replace_left,
    replace_right, swap_partners,
};
use std::alloc::AllocError;

fn undone<B: Bijection<Word, Word>>(
    bimap: &mut B,
    request: &Request<'_>,
    said: &mut String,
) -> Result<bool, AllocError> {
    if bimap.can_undo_insert(&request.first, &request.answer) {
        return say(bimap.undo_insert(&request.first, request.answer), said);
    }
    write!(said, "can't be undone")?;
    Ok(true)
}

fn removed<B: Bijection<Word, Word>>(
    bimap: &mut B,
    request: &Request<'_>,
    said: &mut String,
) -> Result<bool, AllocError> {
    match request.call {
        "remove_by_left" => say(bimap.remove_by_left(&request.first), said),
        "remove_by_right" => say(bimap.remove_by_right(&request.first), said),
        "clear" => say(bimap.clear(), said),
        _ => Ok(false),
    }
}

fn interned<B: Bijection<Word, Word>>(
    bimap: &mut B,
    request: &Request<'_>,
    said: &mut String,
) -> Result<bool, AllocError> {
    let (left, right) = (request.first, request.second);
    match request.call {
        "get_by_left_or_insert_with" => {
            let make = || right;
            say(get_by_left_or_insert_with(bimap, left, make), said)
        }
        "get_by_right_or_insert" => say(get_by_right_or_insert(bimap, left, right), said),
        _ => removed(bimap, request, said),
    }
}

/// Makes the call, if it is one of this file. Returns whether it is.
pub fn call<B: Bijection<Word, Word>>(
    bimap: &mut B,
    request: &Request<'_>,
    said: &mut String,
) -> Result<bool, AllocError> {
    let (left, right) = (request.first, request.second);
    match request.call {
        "put" => say(put(bimap, left, right, request.policy), said),
        "replace_left" => say(replace_left(bimap, &left, right), said),
        "replace_right" => say(replace_right(bimap, &left, right), said),
        "swap_partners" => say(swap_partners(bimap, &left, &right), said),
        "undo_insert" => undone(bimap, request, said),
        _ => interned(bimap, request, said),
    }
}
