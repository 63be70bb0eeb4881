//! The lines of a file, and how a group of lines is added. It does not know what a line says.
ghost use Rattle.std.specs.Prelude.{◌≡◌, ◌⊎◌, ◌≤◌, ◌^◌, ◌++◌, List, ℕ, OnOk, OnErr};
ghost use Rattle.bimap_journal.specs.Calls.{LeavesOnly, HasFailed};
ghost use Rattle.bimap_journal.specs.Lines.{HasLines, IsAtRest, IsGroup};

use crate::disk::Disk;
use crate::storage::Storage;
use std::io;

const MAX_END: usize = 1 << 61;

/// The file of a journal. `end` is the place of the byte that closes its lines.
#[derive(Drop)]
pub struct Journal<S: Storage + Drop> {
    pub disk: Disk<S>,
    pub end: usize,
}

impl<S: Storage + Drop> Journal<S> {
    /// Adds a group of lines. After a crash all of them are there, or none.
    ///
    /// The byte in front of the group is a minus until the group is on the disk. So no part of the group counts before.
    /// Then a write of this one byte makes the whole group count.
    ///
    /// Time: Two writes and two syncs.
    ///
    /// Memory: It does not allocate.
    ///
    /// `Err`: The file has all lines of the group or none. Call this no more, and read the file again.
    pub fn commit(&mut self, group: &Vec<u8>) -> io::Result<()>
        ensures acknowledged { (texts more : List (List ℕ))
            → IsAtRest self.old.disk self.old.end texts → IsGroup group.now.items more
            → OnOk result (IsAtRest self.new.disk self.new.end (texts ++ more)) }
        ensures any_moment { (texts more : List (List ℕ))
            → IsAtRest self.old.disk self.old.end texts → IsGroup group.now.items more
            → LeavesOnly self.old.disk self.new.disk
            (λ file. HasLines file texts ⊎ HasLines file (texts ++ more)) }
        ensures cause { OnErr result (HasFailed self.new.disk ⊎ (2 ^ 61 ≤ self.new.end)) }
    {
        if self.end >= MAX_END {
            return Err(io::ErrorKind::FileTooLarge.into());
        }
        self.disk.write_at(self.end + 1, group)?;
        self.disk.sync()?;
        self.disk.write_byte(self.end, b'+')?;
        self.disk.sync()?;
        self.end += group.len();
        Ok(())
    }
}
