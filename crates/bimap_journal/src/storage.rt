//! What a journal asks of the system. It does not know what stands in the file.
use std::alloc::Global;
use std::io;

/// A file that can be written in place, and replaced as a whole.
///
/// No contract says what the methods do. The promises of a journal hold if they do what is written here.
pub trait Storage {
    /// Returns the whole content of the file, which is on the disk.
    fn read(&mut self, alloc: Global) -> io::Result<Vec<u8>>;

    /// Writes all these bytes from a place on, which is at most the length of the file.
    fn write_at(&mut self, at: usize, bytes: &[u8]) -> io::Result<()>;

    /// Cuts the file to a length.
    fn set_len(&mut self, len: usize) -> io::Result<()>;

    /// Returns once the content and the length of the file are on the disk.
    fn sync(&mut self) -> io::Result<()>;

    /// Gives the file this content, as a whole or not at all. Returns once it is on the disk.
    fn replace(&mut self, bytes: &[u8]) -> io::Result<()>;
}
