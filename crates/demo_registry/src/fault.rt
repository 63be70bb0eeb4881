//! The reason why a member was not registered, in words. This file does not know lines.
use bimap::{ItemRefused, NotInsertedWith};
use std::fmt;

/// Why the members of a batch were not registered. They are counted from 0.
#[derive(Debug, Drop)]
pub struct Refused(pub ItemRefused<u32, String>);

impl fmt::Display for Refused {
    fn fmt<W: fmt::Write>(&self, f: &mut fmt::Formatter<W>) -> fmt::Result {
        write!(f, "member {}, ", self.0.taken)?;
        match &self.0.why {
            NotInsertedWith::LeftHeld(id, name) => write!(f, "{id} {name}: {id} is taken"),
            NotInsertedWith::RightHeld(id, name) => write!(f, "{id} {name}: {name} is taken"),
            NotInsertedWith::Memory(id, name) => write!(f, "{id} {name}: no memory"),
        }
    }
}
