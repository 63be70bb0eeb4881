//! The reasons why names and codes were not accepted, and a message for each. This file does not know lines.
use bimap::value::JsonFault;
use bimap::{ItemRefused, NotInsertedWith};
use std::fmt;

/// Why names and their codes were not accepted. Entries and items are counted from 0.
#[derive(Debug, Drop)]
pub enum Fault {
    /// The text is not a table in JSON.
    NotTable(JsonFault),
    /// A word that should be a code is not a number from 0 to 4294967295.
    NotCode,
    /// The last name is not followed by a code.
    NoCode,
    /// An item was not accepted. The items before it were.
    Refused(ItemRefused<String, u32>),
    /// There was no memory for the items.
    Memory,
}

// Writes what is wrong with a JSON text.
fn write_entry<W: fmt::Write>(f: &mut fmt::Formatter<W>, fault: JsonFault) -> fmt::Result {
    match fault {
        JsonFault::NotJson => write!(f, "no JSON; wanted: an object of names with codes"),
        JsonFault::NameTwice => write!(f, "a name stands twice"),
        JsonFault::NotAnObject => write!(f, "no JSON object; wanted: one of names with codes"),
        JsonFault::BadKey(at) => write!(f, "entry {at}: its name is no text"),
        JsonFault::BadValue(at) => {
            write!(f, "entry {at}: its code is no number from 0 to 4294967295")
        }
        JsonFault::LeftHeld(at) => write!(f, "entry {at}: its name stands before"),
        JsonFault::RightHeld(at) => write!(f, "entry {at}: its code stands before"),
        JsonFault::Memory => write!(f, "no memory"),
    }
}

// Writes which item was not accepted, and why.
fn write_item<W: fmt::Write>(
    f: &mut fmt::Formatter<W>,
    refused: &ItemRefused<String, u32>,
) -> fmt::Result {
    let taken = refused.taken;
    match &refused.why {
        NotInsertedWith::LeftHeld(name, code) => {
            write!(f, "item {taken}, {name} {code}: the name is taken")
        }
        NotInsertedWith::RightHeld(name, code) => {
            write!(f, "item {taken}, {name} {code}: the code is taken")
        }
        NotInsertedWith::Memory(name, code) => write!(f, "item {taken}, {name} {code}: no memory"),
    }
}

impl fmt::Display for Fault {
    fn fmt<W: fmt::Write>(&self, f: &mut fmt::Formatter<W>) -> fmt::Result {
        match self {
            Fault::NotTable(fault) => write_entry(f, *fault),
            Fault::NotCode => write!(f, "a code is no number from 0 to 4294967295"),
            Fault::NoCode => write!(f, "the last name has no code"),
            Fault::Refused(refused) => write_item(f, refused),
            Fault::Memory => write!(f, "no memory"),
        }
    }
}
