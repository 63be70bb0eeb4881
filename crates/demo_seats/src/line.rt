//! The requests that a line can make of the ledger, and the replies.
ghost use Rattle.std.specs.Prelude.{◌≤◌};

use crate::ledger::{Ledger, Seats, leave, move_to, take};
use crate::seats::{first_taken, guest_on, last_taken, row, seat_of};
use bimap::{NoRoom, NotInsertedWith, Overwritten};
use std::alloc::{AllocError, Global};
use std::io;
use tool_lines::{NO_TEXT, number, text_of, wanted, words};

/// The requests, one on each line, and what each does.
pub const REQUESTS: &str = "take GUEST SEAT - gives the guest the seat, and whoever has it loses it
move GUEST SEAT - gives the guest the seat, if nobody has it
leave GUEST - gives up the seat of the guest
seat GUEST - prints the seat of the guest
guest SEAT - prints who has the seat
row FIRST END - prints who sits from FIRST to before END, which is at least FIRST
first - prints who has the first seat that is taken
last - prints who has the last seat that is taken
compact - writes FILE anew, with a line for each guest
help - lists these requests, in which SEAT, FIRST and END are numbers up to 4294967295";

// Returns in words who lost which seat when a guest got a seat.
fn seated(alloc: Global, lost: &Overwritten<String, u32>) -> Result<String, AllocError> {
    match lost {
        Overwritten::Neither => String::from_str(alloc, "seated"),
        Overwritten::Pair(_, seat) => format!(in alloc; "stays on {seat}"),
        Overwritten::Left(_, seat) => format!(in alloc; "seated, leaves {seat}"),
        Overwritten::Right(guest, _) => format!(in alloc; "seated, {guest} has none"),
        Overwritten::Both((_, seat), (guest, _)) => {
            format!(in alloc; "seated, leaves {seat}, {guest} has none")
        }
    }
}

fn taken(alloc: Global, ledger: &mut Ledger, guest: &str, seat: u32) -> io::Result<String> {
    match take(ledger, String::from_str(alloc, guest)?, seat)? {
        Ok(lost) => Ok(seated(alloc, &lost)?),
        Err(NoRoom { .. }) => Err(AllocError.into()),
    }
}

fn moved(alloc: Global, ledger: &mut Ledger, guest: &str, seat: u32) -> io::Result<String> {
    let told = match move_to(ledger, String::from_str(alloc, guest)?, seat)? {
        Ok(lost) => seated(alloc, &lost)?,
        Err(NotInsertedWith::Memory(_, _)) => return Err(AllocError.into()),
        Err(NotInsertedWith::LeftHeld(guest, _)) => format!(in alloc; "{guest} stays")?,
        Err(NotInsertedWith::RightHeld(guest, seat)) => {
            format!(in alloc; "{guest} stays, {seat} is taken")?
        }
    };
    Ok(told)
}

fn gone(alloc: Global, ledger: &mut Ledger, guest: &str) -> io::Result<String> {
    let told = match leave(ledger, &String::from_str(alloc, guest)?)? {
        Some((_, seat)) => format!(in alloc; "leaves {seat}")?,
        None => String::from_str(alloc, "has none")?,
    };
    Ok(told)
}

fn place(alloc: Global, seats: &Seats, guest: &str) -> Result<String, AllocError> {
    match seat_of(seats, &String::from_str(alloc, guest)?) {
        Some(seat) => format!(in alloc; "{seat}"),
        None => String::from_str(alloc, "has none"),
    }
}

fn sitter(alloc: Global, seats: &Seats, seat: u32) -> Result<String, AllocError> {
    match guest_on(seats, &seat) {
        Some(guest) => String::from_str(alloc, guest.as_str()),
        None => String::from_str(alloc, "nobody"),
    }
}

// Returns in words the guests on the seats of a row, each with the seat, in ascending order of the seats.
fn sitters(alloc: Global, seats: &Seats, first: u32, end: u32) -> Result<String, AllocError>
    requires ordered { first ≤ end }
{
    let mut told = String::new(alloc);
    for (guest, seat) in row(seats, first, end) {
        let comma = if told.is_empty() { "" } else { ", " };
        write!(told, "{comma}{guest} on {seat}")?;
    }
    match told.is_empty() {
        true => String::from_str(alloc, "nobody"),
        false => Ok(told),
    }
}

// Returns in words the guest and the seat at one end of the taken seats.
fn end(alloc: Global, taken: Option<(&String, &u32)>) -> Result<String, AllocError> {
    match taken {
        Some((guest, seat)) => format!(in alloc; "{guest} on {seat}"),
        None => String::from_str(alloc, "nobody"),
    }
}

fn compacted(alloc: Global, ledger: &mut Ledger) -> io::Result<String> {
    let told = match ledger.compact()? {
        true => "FILE has a line for each guest",
        false => "there is no FILE",
    };
    Ok(String::from_str(alloc, told)?)
}

// Returns the reply to a line that changes nothing, or to a bad one.
fn told(alloc: Global, seats: &Seats, line: &str) -> Result<String, AllocError> {
    let mut words = words(line);
    let (verb, first) = (words.next(), words.next());
    let (seat, second) = (first.map(number), words.next().map(number));
    match (verb, first, seat, second, words.next()) {
        (Some("row"), _, Some(Some(first)), Some(Some(end)), None) if first <= end => {
            sitters(alloc, seats, first, end)
        }
        (Some("guest"), _, Some(Some(seat)), None, None) => sitter(alloc, seats, seat),
        (Some("first"), None, _, None, None) => end(alloc, first_taken(seats)),
        (Some("last"), None, _, None, None) => end(alloc, last_taken(seats)),
        (Some("seat"), Some(guest), _, None, None) => place(alloc, seats, guest),
        (Some("help"), None, _, None, None) => String::from_str(alloc, REQUESTS),
        _ => format!(in alloc; "bad line; wanted: {}", wanted(REQUESTS, line)),
    }
}

// Returns the reply to a line of text.
fn reply_to(alloc: Global, ledger: &mut Ledger, line: &str) -> io::Result<String> {
    let mut words = words(line);
    let (verb, guest, seat) = (words.next(), words.next(), words.next().map(number));
    match (verb, guest, seat, words.next()) {
        (Some("take"), Some(guest), Some(Some(seat)), None) => taken(alloc, ledger, guest, seat),
        (Some("move"), Some(guest), Some(Some(seat)), None) => moved(alloc, ledger, guest, seat),
        (Some("leave"), Some(guest), None, None) => gone(alloc, ledger, guest),
        (Some("compact"), None, None, None) => compacted(alloc, ledger),
        _ => Ok(told(alloc, ledger.map(), line)?),
    }
}

/// Returns the reply to a line, which is one of `REQUESTS`. If the line is another one, the reply says what it should
/// have been, and nothing changes. If the ledger has a file, the file has what the line changed.
pub fn reply(alloc: Global, ledger: &mut Ledger, line: io::Result<String>) -> io::Result<String> {
    match text_of(line)? {
        Some(line) => reply_to(alloc, ledger, line.as_str()),
        None => Ok(String::from_str(alloc, NO_TEXT)?),
    }
}
