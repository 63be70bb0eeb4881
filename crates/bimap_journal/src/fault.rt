//! Why a change was not stored, and why a journal was not opened.
use std::io;
use thiserror::Error;

/// Why a change is not known to be in the file. `G` is what the call was given, and `A` what the map returned.
#[derive(Debug, Drop, Error)]
pub enum NotStored<G, A> {
    /// There was no memory for the text of the change. Neither the map nor the file has changed.
    #[error("out of memory for the text of the change")]
    Memory(G),
    /// The text of the change has a line break. Neither the map nor the file has changed. No type of the standard
    /// library is written so.
    #[error("the text of the change has a line break")]
    LineBreak(G),
    /// A change before this one failed. Neither the map nor the file has changed. Open the file again.
    #[error("a write has failed before: open the journal again")]
    Stopped(G),
    /// The map has the change. The file has all of it or nothing of it. Open the file again.
    #[error("the write failed: {1}")]
    Failed(A, io::Error),
}

/// Why a journal was not opened. The file has the same lines as before.
#[derive(Debug, Drop, Error)]
pub enum NotOpened {
    /// The file does not begin with the first line of a journal.
    #[error("no journal: its first line is another")]
    NotAJournal,
    /// The file is a journal of a version that is not known.
    #[error("a journal of another version")]
    OtherVersion,
    /// The line that begins at this byte is damaged, or the file ends too early there.
    #[error("damaged at byte {0}")]
    Damaged(usize),
    /// Out of memory.
    #[error("out of memory")]
    Memory,
    /// The system refused a call.
    #[error("{0}")]
    Failed(io::Error),
}
