//! The calls of the map that records its changes.
use crate::kind::{ShellKind, say};
use crate::request::Request;
use crate::session::Session;
use crate::word::Word;
use bimap_undo::Undoable;
use std::alloc::AllocError;
use std::mem;
use test_support::CopyKind;

// Makes a change, which is recorded.
fn changed<B: CopyKind<Word, Word> + ShellKind>(
    record: &mut Undoable<B, Word, Word>,
    request: &Request<'_>,
    said: &mut String,
) -> Result<bool, AllocError> {
    let (left, right) = (request.first, request.second);
    match request.call {
        "insert" => say(record.insert(left, right), said),
        "insert_with" => say(record.insert_with(left, right, request.policy), said),
        "insert_all" => {
            let items = request.pairs.iter().copied();
            say(record.insert_all(items, request.policy), said)
        }
        "replace_left" => say(record.replace_left(&left, right), said),
        "replace_right" => say(record.replace_right(&left, right), said),
        "remove_by_left" => say(record.remove_by_left(&left), said),
        "remove_by_right" => say(record.remove_by_right(&left), said),
        _ => Ok(false),
    }
}

// Shows the record, or goes back in it.
fn recorded<B: CopyKind<Word, Word> + ShellKind>(
    record: &mut Undoable<B, Word, Word>,
    request: &Request<'_>,
    said: &mut String,
) -> Result<bool, AllocError> {
    let number = request.number;
    if number > record.mark() {
        write!(said, "no such mark")?;
        return Ok(true);
    }
    match request.call {
        "mark" => say(record.mark(), said),
        "last_change" => say(record.last_change(), said),
        "changes_since" => say(record.changes_since(number), said),
        "back_to" => say(record.back_to(number), said),
        "undo_last" => say(record.undo_last(number), said),
        "forget" => say(record.forget(), said),
        _ => Ok(false),
    }
}

/// Makes the call, if it is one of this file. Returns whether it is.
pub fn call<B: CopyKind<Word, Word> + ShellKind>(
    session: &mut Session<B>,
    request: &Request<'_>,
    said: &mut String,
) -> Result<bool, AllocError> {
    let alloc = session.alloc;
    match request.call {
        "held" => session.record.held().show(said)?,
        "new" => {
            let bimap = mem::replace(&mut session.bimap, B::empty(alloc));
            session.record = Undoable::new(alloc, bimap);
            session.record.held().show(said)?;
        }
        "into_inner" => {
            let empty = Undoable::new(alloc, B::empty(alloc));
            session.bimap = mem::replace(&mut session.record, empty).into_inner();
            session.bimap.show(said)?;
        }
        _ => {
            return Ok(
                changed(&mut session.record, request, said)?
                    || recorded(&mut session.record, request, said)?,
            );
        }
    }
    Ok(true)
}
