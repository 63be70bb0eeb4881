//! A file with a record of the calls that were made on it. Only contracts see the record. What the
//! file means, it does not know.
use crate::storage::Storage;
use http_server::Log;
use std::alloc::Global;
use std::io;
use std::marker::Model;

/// A call on a file. The truth value says whether it succeeded.
#[derive(Clone, Copy, Debug, Eq, PartialEq)]
pub enum Operation {
    /// The whole file was read, right after it was opened.
    Found,
    /// Bytes were written from this place on.
    Wrote(usize, bool),
    /// One byte was written at this place.
    WroteByte(usize, u8, bool),
    /// The file was cut to this length.
    Cut(usize, bool),
    /// The system was asked to put the file on the disk.
    Synced(bool),
    /// The file got this content as a whole, on the disk.
    Replaced(bool),
}

/// A file, and the record of the calls that were made on it.
///
/// A contract sees the calls, the last of them first. Each method makes the one call that it records.
#[derive(Drop)]
pub struct Disk<S: Storage + Drop> {
    storage: S,
    log: Log<Operation, Vec<u8>>,
    nothing: Vec<u8>,
}

impl<S: Storage + Drop> Model for Disk<S> {
    ghost use Rattle.std.specs.Prelude.{List, reverse};
    ghost use Rattle.bimap_journal.specs.Calls.{Event};

    ghost Value = { List Event };

    ghost view = { λ d. reverse d.log.items };
}

impl<S: Storage + Drop> Disk<S> {
    ghost use Rattle.std.specs.Prelude.{◌≡◌, [], ◌∷◌, is_ok, IfOk, OnErr};
    ghost use Rattle.bimap_journal.specs.Calls.{IsMade};
    ghost use Rattle.bimap_journal.specs.declared.disk.Operation.TheVariants.{Found, Wrote, WroteByte, Cut, Synced, Replaced};

    /// Returns the file with no call made on it yet.
    pub fn new(alloc: Global, storage: S) -> Disk<S>
        ensures { result ≡ [] }
    {
        Disk {
            storage,
            log: Log::new(),
            nothing: Vec::new(alloc),
        }
    }

    /// Returns the whole content of the file.
    pub fn read(&mut self, alloc: Global) -> io::Result<Vec<u8>>
        ensures found { IfOk result (λ bytes. self.new ≡ (Found, bytes) ∷ self.old) }
        ensures nothing { OnErr result (self.new ≡ self.old) }
    {
        let bytes = self.storage.read(alloc)?;
        self.log = self.log.and(&Operation::Found, &bytes);
        Ok(bytes)
    }

    /// Hands the file back.
    pub fn into_storage(self) -> S {
        self.storage
    }

    /// Writes bytes from a place on.
    pub fn write_at(&mut self, at: usize, bytes: &Vec<u8>) -> io::Result<()>
        ensures { self.new ≡ (Wrote at (is_ok result), bytes.now) ∷ self.old }
    {
        let answer = self.storage.write_at(at, bytes);
        self.log = self.log.and(&Operation::Wrote(at, answer.is_ok()), bytes);
        answer
    }

    /// Writes one byte.
    pub fn write_byte(&mut self, at: usize, byte: u8) -> io::Result<()>
        ensures { IsMade (WroteByte at byte (is_ok result)) self.old self.new }
    {
        let answer = self.storage.write_at(at, &[byte]);
        self.note(Operation::WroteByte(at, byte, answer.is_ok()));
        answer
    }

    /// Cuts the file to a length.
    pub fn set_len(&mut self, len: usize) -> io::Result<()>
        ensures { IsMade (Cut len (is_ok result)) self.old self.new }
    {
        let answer = self.storage.set_len(len);
        self.note(Operation::Cut(len, answer.is_ok()));
        answer
    }

    /// Returns once the file is on the disk.
    pub fn sync(&mut self) -> io::Result<()>
        ensures { IsMade (Synced (is_ok result)) self.old self.new }
    {
        let answer = self.storage.sync();
        self.note(Operation::Synced(answer.is_ok()));
        answer
    }

    /// Gives the file this content, as a whole or not at all.
    pub fn replace(&mut self, bytes: &Vec<u8>) -> io::Result<()>
        ensures { self.new ≡ (Replaced (is_ok result), bytes.now) ∷ self.old }
    {
        let answer = self.storage.replace(bytes);
        self.log = self.log.and(&Operation::Replaced(answer.is_ok()), bytes);
        answer
    }

    // Records an operation that has no bytes.
    fn note(&mut self, operation: Operation)
        ensures { IsMade operation self.old self.new }
    {
        self.log = self.log.and(&operation, &self.nothing);
    }
}
