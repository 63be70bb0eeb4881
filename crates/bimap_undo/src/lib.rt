//! A map that goes back to marks. It uses calls of `Bijection` alone.
#![tactic(auto)]

mod copy_left;
mod ends;
mod entry;
mod look_ups;
mod operations;
mod refusal;
mod undoable;

pub use copy_left::CopyLeft;
pub use entry::Entry;
pub use operations::{Operation, Outcome, there_and_back};
pub use refusal::NotRecorded;
pub use undoable::Undoable;
