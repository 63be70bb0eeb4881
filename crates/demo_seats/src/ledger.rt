//! The changes that a line can make of a ledger, which is in memory alone, or in a file too.
use crate::seats;
use bimap::{BiHashBTreeMap, NoRoom, NotInsertedWith, OnHeld, Overwritten, Policy};
use std::io;
use tool_journal::{Kept, stored};

/// Guests by their names, each with the number of a seat.
pub type Seats = BiHashBTreeMap<String, u32>;

/// A ledger in memory alone, or in a file too.
///
/// When a function of this file returns `Ok`, the file has the change. An `Err` of `io::Result` says that there was no
/// memory for the text of the change, or that the file could not be written.
pub type Ledger = Kept<Seats, String, u32>;

/// Gives a guest a seat, as [`seats::take`] does.
pub fn take(
    ledger: &mut Ledger,
    guest: String,
    seat: u32,
) -> io::Result<Result<Overwritten<String, u32>, NoRoom<String, u32>>> {
    match ledger {
        Kept::InMemory(map) => Ok(seats::take(map, guest, seat)),
        Kept::InFile(journal, _) => stored(journal.insert(guest, seat)),
    }
}

/// Gives a guest a seat that nobody has, as [`seats::move_to`] does.
pub fn move_to(
    ledger: &mut Ledger,
    guest: String,
    seat: u32,
) -> io::Result<Result<Overwritten<String, u32>, NotInsertedWith<String, u32>>> {
    match ledger {
        Kept::InMemory(map) => Ok(seats::move_to(map, guest, seat)),
        Kept::InFile(journal, _) => {
            let free = Policy {
                left: OnHeld::Overwrite,
                right: OnHeld::Refuse,
            };
            stored(journal.insert_with(guest, seat, free))
        }
    }
}

/// Removes a guest, as [`seats::leave`] does.
pub fn leave(ledger: &mut Ledger, guest: &String) -> io::Result<Option<(String, u32)>> {
    match ledger {
        Kept::InMemory(map) => Ok(seats::leave(map, guest)),
        Kept::InFile(journal, _) => stored(journal.remove_by_left(guest)),
    }
}
