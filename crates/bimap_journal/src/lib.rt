//! A map that outlives a crash: each change is in a file before it is acknowledged.
#![tactic(auto)]

mod batch;
mod change;
mod disk;
mod fault;
mod file;
mod group;
mod journal;
mod journaled;
mod progress;
mod reading;
mod storage;
mod stored;
mod text;

pub use disk::Disk;
pub use fault::{NotOpened, NotStored};
pub use file::{File, FileError};
pub use journaled::Journaled;
pub use progress::Progress;
pub use storage::Storage;
pub use stored::Stored;
