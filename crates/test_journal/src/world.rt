//! A file in memory that can stop at any call, and what a crash then leaves of it. It does not know what stands in the
//! file.
use crate::torn::{behind, front, joined, push_outcomes};
use bimap_journal::Storage;
use std::alloc::{AllocError, Global};
use std::io::{self, ErrorKind};

/// What a call changes in a file.
#[derive(Drop)]
pub enum Change {
    /// These bytes are written from a place on.
    Write(usize, Vec<u8>),
    /// The file is cut to a length.
    Cut(usize),
    /// The file gets this content as a whole.
    Replace(Vec<u8>),
}

/// A file, and how many more calls succeed.
#[derive(Drop)]
pub struct World {
    // What is surely on the disk.
    disk: Vec<u8>,
    // What a read returns.
    seen: Vec<u8>,
    // The changes since the last sync.
    pending: Vec<Change>,
    calls_left: u32,
    is_down: bool,
    calls_too_many: u32,
}

// What becomes of a call.
#[derive(Clone, Copy)]
enum Fate {
    // It succeeds.
    Works,
    // It fails, and may have changed the file.
    Breaks,
    // It fails, and changes nothing.
    Refused,
}

fn broken<T>() -> io::Result<T> {
    Err(ErrorKind::BrokenPipe.into())
}

impl World {
    /// Returns a file with this content, which is on the disk. So many calls succeed. The next one breaks, and all
    /// later calls change nothing.
    pub fn new(alloc: Global, content: &[u8], calls: u32) -> Result<World, AllocError> {
        Ok(World {
            disk: content.to_vec(alloc)?,
            seen: content.to_vec(alloc)?,
            pending: Vec::new(alloc),
            calls_left: calls,
            is_down: false,
            calls_too_many: 0,
        })
    }

    /// Returns whether a call has failed.
    pub fn is_down(&self) -> bool {
        self.is_down
    }

    /// Returns how many calls were made after one that had failed.
    pub fn calls_too_many(&self) -> u32 {
        self.calls_too_many
    }

    /// Returns what is surely on the disk.
    pub fn disk(&self) -> &[u8] {
        &self.disk
    }

    /// Returns contents that a crash may leave now.
    pub fn outcomes(&self, alloc: Global) -> Result<Vec<Vec<u8>>, AllocError> {
        let mut files = Vec::new(alloc);
        files.push(self.disk.as_slice().to_vec(alloc)?)?;
        for change in &self.pending {
            let mut next = Vec::new(alloc);
            for file in &files {
                push_outcomes(alloc, file, change, &mut next)?;
            }
            files = next;
        }
        Ok(files)
    }

    fn fate(&mut self) -> Fate {
        if self.is_down {
            self.calls_too_many = self.calls_too_many.saturating_add(1);
            return Fate::Refused;
        }
        if self.calls_left == 0 {
            self.is_down = true;
            return Fate::Breaks;
        }
        self.calls_left -= 1;
        Fate::Works
    }
}

/// The use of a file in memory. When it is dropped, the file is still there.
#[derive(Drop)]
pub struct Lent<'a> {
    pub alloc: Global,
    pub world: &'a mut World,
}

impl<'a> Storage for Lent<'a> {
    fn read(&mut self, alloc: Global) -> io::Result<Vec<u8>> {
        match self.world.fate() {
            Fate::Works => Ok(self.world.seen.as_slice().to_vec(alloc)?),
            _ => broken(),
        }
    }

    fn write_at(&mut self, at: usize, bytes: &[u8]) -> io::Result<()> {
        let fate = self.world.fate();
        if matches!(fate, Fate::Refused) {
            return broken();
        }
        self.world
            .pending
            .push(Change::Write(at, bytes.to_vec(self.alloc)?))?;
        if matches!(fate, Fate::Breaks) {
            return broken();
        }
        self.world.seen = written(self.alloc, &self.world.seen, at, bytes)?;
        Ok(())
    }

    fn set_len(&mut self, len: usize) -> io::Result<()> {
        let fate = self.world.fate();
        if matches!(fate, Fate::Refused) {
            return broken();
        }
        self.world.pending.push(Change::Cut(len))?;
        if matches!(fate, Fate::Breaks) {
            return broken();
        }
        self.world.seen.truncate(len);
        Ok(())
    }

    fn sync(&mut self) -> io::Result<()> {
        match self.world.fate() {
            Fate::Works => {
                self.world.disk = self.world.seen.as_slice().to_vec(self.alloc)?;
                self.world.pending.clear();
                Ok(())
            }
            _ => broken(),
        }
    }

    fn replace(&mut self, bytes: &[u8]) -> io::Result<()> {
        match self.world.fate() {
            Fate::Works => {
                self.world.disk = bytes.to_vec(self.alloc)?;
                self.world.seen = bytes.to_vec(self.alloc)?;
                self.world.pending.clear();
                Ok(())
            }
            Fate::Breaks => {
                self.world
                    .pending
                    .push(Change::Replace(bytes.to_vec(self.alloc)?))?;
                broken()
            }
            Fate::Refused => broken(),
        }
    }
}

// Returns a content with bytes written from a place on.
fn written(alloc: Global, old: &[u8], at: usize, bytes: &[u8]) -> Result<Vec<u8>, AllocError> {
    let rest = behind(old, at.saturating_add(bytes.len()));
    joined(alloc, front(old, at), bytes, rest)
}
