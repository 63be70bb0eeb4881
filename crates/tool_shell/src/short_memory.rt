//! Calls whose allocations are refused.
use crate::kind::ShellKind;
use crate::request::{Memory, Request};
use crate::session::Session;
use crate::word::Word;
use bimap::NoMemory;
use std::alloc::AllocError;
use test_support::{CopyKind, MemoryLimit};

/// The length of an answer that needs no allocation.
const SAID: usize = 1 << 16;

// Returns whether the answer says "out of memory".
fn is_refusal(said: &str) -> bool {
    said.starts_with("Err(NoMemory")
        || said.starts_with("Err(NoRoom")
        || said.starts_with("Err(Memory")
        || said.starts_with("Err(ExtendStopped")
        || said.starts_with("Err(RunRefused")
        || said.starts_with("Err(UndoStopped")
        || said.starts_with("Err(NotInverted")
        || said.contains("why: Memory")
        || said.starts_with("NoRoom(")
}

// Makes the call again and again, each time with a little more memory, until it does not run out of memory.
fn retried<B: CopyKind<Word, Word> + ShellKind>(
    session: &mut Session<B>,
    request: &mut Request<'_>,
    said: &mut String,
) -> Result<bool, AllocError> {
    let mut before = String::with_capacity(session.alloc, SAID)?;
    let mut after = String::with_capacity(session.alloc, SAID)?;
    session.show(&mut before)?;
    let (mut refused, mut changed) = (false, false);
    let mut limit = MemoryLimit::begin(session.alloc, 300)?;
    for _ in 0..300u32 {
        said.clear();
        if !session.call(request, said)? {
            return Ok(false);
        }
        if !is_refusal(said.as_str()) {
            break;
        }
        refused = true;
        after.clear();
        session.show(&mut after)?;
        changed = changed || before != after;
        if !limit.raise()? {
            break;
        }
    }
    drop(limit);
    let head = match (refused, changed) {
        (false, _) => "never refused: ",
        (true, false) => "refused, nothing changed; then ",
        (true, true) => "refused, CHANGED; then ",
    };
    said.insert_str(0, head)?;
    Ok(true)
}

// Makes a call with the memory that its line grants.
fn fed<B: CopyKind<Word, Word> + ShellKind>(
    session: &mut Session<B>,
    request: &mut Request<'_>,
    said: &mut String,
) -> Result<bool, AllocError> {
    match request.memory {
        Memory::Plenty => session.call(request, said),
        Memory::Rising => retried(session, request, said),
        Memory::Refused => {
            let limit = MemoryLimit::begin(session.alloc, 0)?;
            let has = session.call(request, said)?;
            drop(limit);
            Ok(has)
        }
    }
}

/// Makes a call, or stores the map that was made. It begins a session if there is none yet.
pub fn call<B: CopyKind<Word, Word> + ShellKind>(
    begun: &mut Option<Session<B>>,
    made: Option<Result<B, NoMemory>>,
    request: &mut Request<'_>,
    said: &mut String,
) -> Result<bool, AllocError> {
    if begun.is_none() {
        *begun = Some(Session::new(request.alloc));
    }
    match (begun, made) {
        (Some(session), Some(made)) => session.begin(made, said),
        (Some(session), None) => fed(session, request, said),
        (None, _) => Ok(false),
    }
}
