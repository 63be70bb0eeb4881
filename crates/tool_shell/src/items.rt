//! Calls with many pairs.
use crate::kind::{ShellKind, say};
use crate::request::Request;
use crate::session::Session;
use crate::word::Word;
use bimap::{extend_with, from_iter_with};
use std::alloc::AllocError;
use test_support::CopyKind;

/// Makes the call, if it is one of this file. Returns whether it is.
pub fn call<B: CopyKind<Word, Word> + ShellKind>(
    session: &mut Session<B>,
    request: &Request<'_>,
    said: &mut String,
) -> Result<bool, AllocError> {
    let items = request.pairs.iter().copied();
    match request.call {
        "extend" => say(session.bimap.add(request.pairs.as_slice()), said),
        "extend_with" => say(extend_with(&mut session.bimap, items, request.policy), said),
        "from_iter" => {
            let answer = B::built(session.alloc, request.pairs.as_slice());
            session.begin(answer, said)
        }
        "from_iter_with" => {
            let empty = B::empty(session.alloc);
            let answer = from_iter_with(empty, items, request.policy);
            session.begin(answer, said)
        }
        _ => Ok(false),
    }
}
