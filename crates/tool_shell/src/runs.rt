//! Lists of calls, and their undoing.
use crate::kind::say;
use crate::request::Request;
use crate::word::Word;
use bimap::{Bijection, RunRefused, perform, run, undo_run};
use std::alloc::{AllocError, Global};
use std::mem;
use test_support::insert_all;

// Inserts the pairs, and undoes the insertions from the last to the first.
fn undone<B: Bijection<Word, Word>>(
    alloc: Global,
    bimap: &mut B,
    pairs: &[(Word, Word)],
    said: &mut String,
) -> Result<bool, AllocError> {
    let entries = insert_all(alloc, bimap, pairs)?;
    write!(said, "{entries:?} · ")?;
    say(undo_run(bimap, entries), said)
}

fn ran<B: Bijection<Word, Word>>(
    alloc: Global,
    bimap: &mut B,
    request: &mut Request<'_>,
    said: &mut String,
) -> Result<bool, AllocError> {
    let calls = mem::replace(&mut request.calls, Vec::new(alloc));
    let answer = run(
        alloc,
        bimap,
        calls,
        |least: &Word, _left: &Word, right: &Word| *right >= *least,
    );
    match answer {
        Ok(replies) => write!(said, "Ok({replies:?})")?,
        Err(RunRefused { calls }) => {
            write!(said, "Err(RunRefused {{ calls: {calls:?} }})")?;
            request.calls = calls;
        }
    }
    Ok(true)
}

fn performed<B: Bijection<Word, Word>>(
    bimap: &mut B,
    request: &mut Request<'_>,
    said: &mut String,
) -> Result<bool, AllocError> {
    match request.calls.pop() {
        Some(call) => {
            let reply = perform(
                bimap,
                call,
                &|least: &Word, _left: &Word, right: &Word| *right >= *least,
            );
            say(reply, said)
        }
        None => Ok(false),
    }
}

/// Makes the call, if it is one of this file. Returns whether it is.
pub fn call<B: Bijection<Word, Word>>(
    alloc: Global,
    bimap: &mut B,
    request: &mut Request<'_>,
    said: &mut String,
) -> Result<bool, AllocError> {
    match request.call {
        "perform" => performed(bimap, request, said),
        "run" => ran(alloc, bimap, request, said),
        "undo_run" => undone(alloc, bimap, request.pairs.as_slice(), said),
        _ => Ok(false),
    }
}
