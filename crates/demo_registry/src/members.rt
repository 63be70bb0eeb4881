//! What a line can change of a registry that is in memory alone, or in a file too.
use crate::batch::{batch_of, calls_of};
use crate::registry::{self, Registry};
use bimap::{ItemRefused, NoMemory, NotInserted, NotReplaced};
use bimap_journal::{File, Journaled};
use std::alloc::Global;
use std::io::{self, ErrorKind};
use tool_journal::{Kept, stored};

/// A registry in memory alone, or in a file too.
///
/// When a function of this file returns `Ok`, the file has the change. An `Err` of `io::Result` says that there was no
/// memory for the text of the change, or that the file could not be written.
pub type Members = Kept<Registry, u32, String>;

/// Registers a name under an id, as [`registry::register`] does.
pub fn register(
    members: &mut Members,
    id: u32,
    name: String,
) -> io::Result<Result<(), NotInserted<u32, String>>> {
    match members {
        Kept::InMemory(registry) => Ok(registry::register(registry, id, name)),
        Kept::InFile(journal, _) => stored(journal.insert_no_overwrite(id, name)),
    }
}

/// Gives the id of a name another name, as [`registry::rename`] does.
pub fn rename(
    members: &mut Members,
    from: &String,
    to: String,
) -> io::Result<Result<String, NotReplaced<String>>> {
    match members {
        Kept::InMemory(registry) => Ok(registry::rename(registry, from, to)),
        Kept::InFile(journal, _) => stored(journal.replace_right(from, to)),
    }
}

/// Gives the name of an id another id, as [`registry::renumber`] does.
pub fn renumber(
    members: &mut Members,
    from: &u32,
    to: u32,
) -> io::Result<Result<u32, NotReplaced<u32>>> {
    match members {
        Kept::InMemory(registry) => Ok(registry::renumber(registry, from, to)),
        Kept::InFile(journal, _) => stored(journal.replace_left(from, to)),
    }
}

/// Registers all members or none, as [`registry::register_all`] does.
pub fn register_all(
    alloc: Global,
    members: &mut Members,
    batch: Vec<(u32, String)>,
) -> io::Result<Result<(), ItemRefused<u32, String>>> {
    match members {
        Kept::InMemory(registry) => Ok(registry::register_all(alloc, registry, batch)),
        Kept::InFile(journal, _) => register_group(alloc, journal, batch),
    }
}

// Registers all members in the file as one group.
fn register_group(
    alloc: Global,
    journal: &mut Journaled<Registry, u32, String, File>,
    members: Vec<(u32, String)>,
) -> io::Result<Result<(), ItemRefused<u32, String>>> {
    let batch = match batch_of(alloc, journal.map(), members) {
        Ok(batch) => batch,
        Err(refused) => return Ok(Err(refused)),
    };
    // With this capacity no insertion runs out of memory, and the registry refuses no part of the batch.
    if journal.reserve(batch.len()).is_err() {
        return Err(ErrorKind::OutOfMemory.into());
    }
    stored(journal.apply(calls_of(alloc, batch)?))?;
    Ok(Ok(()))
}

/// Gives back all capacity that no member uses, as [`registry::give_back_room`] does. Returns `None` for a registry in
/// a file, which keeps its capacity.
pub fn give_back_room(members: &mut Members) -> Option<Result<(), NoMemory>> {
    match members {
        Kept::InMemory(registry) => Some(registry::give_back_room(registry)),
        Kept::InFile(_, _) => None,
    }
}
