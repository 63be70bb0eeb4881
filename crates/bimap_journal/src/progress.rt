//! How far the reading of a file is.

/// What a program does to show how far the opening of a file is.
pub trait Progress {
    /// The file has `of` bytes, and the first `done` of them were read.
    fn at(&mut self, done: usize, of: usize);
}

/// Shows nothing.
#[derive(Drop)]
pub struct Silent;

impl Progress for Silent {
    fn at(&mut self, _done: usize, _of: usize) {}
}
