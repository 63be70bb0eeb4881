//! The file written anew, with a line for each pair.
ghost use Rattle.std.specs.Prelude.{◌≡◌, ◌≢◌, ◌++◌, ◌∷◌, [], List, ℕ, Contains, false, IfOk, OnOk, IfErr};
ghost use Rattle.bimap.specs.InsertionOrder.{holding};
ghost use Rattle.bimap_journal.specs.declared.change.Change.TheVariants.{Insert};
ghost use Rattle.bimap_journal.specs.Calls.{seen};
ghost use Rattle.bimap_journal.specs.Changes.{IsLineOf, IsListOf};
ghost use Rattle.bimap_journal.specs.Lines.{lines};
ghost use Rattle.bimap_journal.specs.State.{KeepsOneOf, Acknowledges, IsNotStored};

use crate::change::insertion;
use crate::fault::NotStored;
use crate::journaled::Journaled;
use crate::reading::HEADER;
use crate::storage::Storage;
use crate::stored::Stored;
use crate::text::{NotWritten, push_line};
use bimap::{BijectiveMap, Index, WalkedIndex};
use std::alloc::Global;

// Appends the line of an insertion.
fn push_insertion<L: Stored, R: Stored>(
    alloc: Global,
    file: &mut Vec<u8>,
    left: &L,
    right: &R,
) -> Result<(), NotWritten>
    requires begun { file.old.items ≢ [] }
    ensures { OnOk result ((text : List ℕ)
        × IsLineOf L.eq R.eq L.reads R.reads (Insert left.now right.now) text
        × (¬ Contains text 10) × (file.new.items ≡ file.old.items ++ lines (text ∷ []))) }
{
    match insertion(alloc, left, right) {
        Ok(value) => push_line(alloc, file, &value),
        Err(_) => Err(NotWritten::Memory),
    }
}

// Returns a file with a line for each pair, in the order of iteration.
fn file_of<L: Stored + Drop, R: Stored + Drop, I: WalkedIndex<L>, J: Index<R>>(
    alloc: Global,
    map: &BijectiveMap<L, R, I, J>,
) -> Result<Vec<u8>, NotWritten>
    ensures { IfOk result (λ file. IsListOf L.eq R.eq L.reads R.reads (holding map.now).pairs
        file.items) }
{
    let mut file = Vec::new(alloc);
    file.extend_from_slice(HEADER)?;
    for (left, right) in map.iter() {
        push_insertion(alloc, &mut file, left, right)?;
    }
    file.push(b'-')?;
    Ok(file)
}

impl<
    L: Stored + Drop,
    R: Stored + Drop,
    I: WalkedIndex<L> + Drop,
    J: Index<R> + Drop,
    S: Storage + Drop,
> Journaled<BijectiveMap<L, R, I, J>, L, R, S> {
    /// Writes the file anew, with a line for each pair in the order of iteration.
    ///
    /// The length of the file then does not depend on earlier changes. After a crash the file is the old one or the new
    /// one, and both stand for the pairs of the map. Each of the five maps has this call.
    ///
    /// Time: That of iterating, and of writing the new file.
    ///
    /// Memory: It allocates the content of the new file.
    ///
    /// `Err`: The map has not changed, and the file may still be the old one. [`NotStored`] says why.
    pub fn compact(&mut self) -> Result<(), NotStored<(), ()>>
        ensures unchanged { self.new.held ≡ self.old.held }
        ensures listed { OnOk result (IsListOf L.eq R.eq L.reads R.reads (self.new.held).pairs
            (seen self.new.calls)) }
        ensures running { OnOk result (self.new.is_stopped ≡ false) }
        ensures acknowledged { OnOk result (Acknowledges L.eq R.eq L.reads R.reads self.new) }
        ensures any_moment { self.old.is_stopped ≡ false
            → KeepsOneOf L.eq R.eq L.reads R.reads self.old self.new }
        ensures fault { IfErr result (IsNotStored (λ given. Unit {0}) (λ made. Unit {0})
            self.old self.new) }
    {
        if self.is_stopped {
            return Err(NotStored::Stopped(()));
        }
        match file_of(self.alloc, &self.map) {
            Ok(file) => match self.journal.disk.replace(&file) {
                Ok(()) => {
                    self.journal.end = file.len() - 1;
                    Ok(())
                }
                Err(error) => {
                    self.is_stopped = true;
                    Err(NotStored::Failed((), error))
                }
            },
            Err(NotWritten::Memory) => Err(NotStored::Memory(())),
            Err(NotWritten::LineBreak) => Err(NotStored::LineBreak(())),
        }
    }
}
