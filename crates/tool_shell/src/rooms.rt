//! Calls about the capacity, and calls that show or exchange whole maps.
use crate::kind::{ShellKind, say};
use crate::request::Request;
use crate::session::Session;
use crate::word::Word;
use bimap::Bijection;
use std::alloc::AllocError;
use std::mem;
use test_support::CopyKind;

fn room<B: CopyKind<Word, Word> + ShellKind>(
    session: &mut Session<B>,
    request: &Request<'_>,
    said: &mut String,
) -> Result<bool, AllocError> {
    let bimap = &mut session.bimap;
    match request.call {
        "reserve" => say(bimap.reserve(request.number), said),
        "shrink_to" => say(bimap.shrink_to(request.number), said),
        "shrink_to_fit" => say(bimap.shrink_to_fit(), said),
        _ => Ok(false),
    }
}

fn each<B: Bijection<Word, Word>>(bimap: &B, said: &mut String) {
    let mut between = false;
    bimap.for_each(|left: &Word, right: &Word| {
        let comma = if between { ", " } else { "" };
        let _written = write!(said, "{comma}({left:?}, {right:?})");
        between = true;
    });
}

/// Makes the call, if it is one of this file. Returns whether it is.
pub fn call<B: CopyKind<Word, Word> + ShellKind>(
    session: &mut Session<B>,
    request: &Request<'_>,
    said: &mut String,
) -> Result<bool, AllocError> {
    match request.call {
        "anew" => {
            *session = Session::new(session.alloc);
            write!(said, "()")?;
        }
        "show" => session.bimap.show(said)?,
        "for_each" => {
            write!(said, "[")?;
            each(&session.bimap, said);
            write!(said, "]")?;
        }
        "into_inverse" => {
            let empty = B::empty(session.alloc);
            session.bimap = mem::replace(&mut session.bimap, empty).turned(said)?;
        }
        "swap" => return say(mem::swap(&mut session.bimap, &mut session.other), said),
        _ => return room(session, request, said),
    }
    Ok(true)
}
