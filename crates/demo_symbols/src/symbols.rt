//! A symbol table with scopes. Its names and numbers are in a bimap that can go back to marks. This file does not know
//! lines.
ghost use Rattle.std.specs.Prelude.{◌≡◌, ◌⊎◌, ◌<◌, ◌++◌, ◌∷◌, [], length, true, Contains, IfOk, IsOk, OnOk, OnErr, nat_eq, string_eq};
ghost use Rattle.std.specs.Bool.{OnTrue, OnFalse};
ghost use Rattle.std.specs.Str.{bytes_eq};
ghost use Rattle.std.specs.String.{string_bytes};
ghost use Rattle.bimap.specs.Holding.{IsFoundByLeft, IsFoundByRight};
ghost use Rattle.bimap.specs.Sets.{IsWithPut, HasLeft, LacksLeft, LacksRight};
ghost use Rattle.bimap_undo.specs.Marks.{IsBefore, KeepsMarks, IsRecordedInsertion, IsReturn};

use bimap::{BiBTreeMap, NoRoom, NotInsertedWith, OnHeld, Policy};
use bimap_undo::Undoable;
use std::alloc::{AllocError, Global};

/// Why a name was given no number. Nothing has changed.
#[derive(Clone, Copy, Debug, Eq, PartialEq)]
pub enum NotInterned {
    /// There is no number above those in use. The contract does not say when this happens.
    NoNumber,
    /// There was no memory.
    NoMemory,
}

/// Names and their numbers, as the innermost scope has them. A name has one number, and a number has one name.
#[derive(Drop)]
pub struct Symbols {
    /// The names and numbers, with a record of the changes.
    pub table: Undoable<BiBTreeMap<String, u32>, String, u32>,
    /// The mark at which each open scope began. The innermost scope is last.
    pub scopes: Vec<usize>,
}

impl Symbols {
    /// Makes a table with no symbols and no open scope. It allocates nothing.
    pub fn new(alloc: Global) -> Symbols
        ensures pairs { result.table.held.pairs ≡ [] }
        ensures scopes { result.scopes.items ≡ [] }
    {
        Symbols {
            table: Undoable::new(alloc, BiBTreeMap::new(alloc)),
            scopes: Vec::new(alloc),
        }
    }

    /// Returns the number of a name, by one search. The caller needs no `String`.
    pub fn number_of(&self, name: &str) -> Option<&u32>
        ensures { IsFoundByLeft (λ held sought. bytes_eq (string_bytes held) sought)
            self.now.table.held name.now result }
    {
        self.table.get_by_left(name)
    }

    /// Returns the name of a number, by one search.
    pub fn name_of(&self, number: &u32) -> Option<&String>
        ensures { IsFoundByRight nat_eq self.now.table.held number.now result }
    {
        self.table.get_by_right(number)
    }

    // Returns a number above all numbers in use, or `None` if there is none.
    fn fresh_number(&self) -> Option<u32> {
        match self.table.held().last_by_right() {
            Some((_, greatest)) => greatest.checked_add(1),
            None => Some(0),
        }
    }

    /// Returns the number of a name. A name that has none gets a number above all numbers in use. No symbol loses its
    /// meaning.
    ///
    /// For a name that has a number the function makes one search. It then never allocates and never fails. For another
    /// name it also makes an insertion, which allocates for the pair and its record. An `Err` drops the name, and
    /// nothing changes.
    pub fn intern(&mut self, name: String) -> Result<u32, NotInterned>
        ensures known { IfOk result (λ number. HasLeft string_eq
            (Contains self.old.table.held.pairs) name →
            (l : _) × Contains self.old.table.held.pairs (l, number) × (string_eq l name ≡ true)) }
        ensures never_refused { HasLeft string_eq (Contains self.old.table.held.pairs) name →
            IsOk result × (self.new ≡ self.old) }
        ensures fresh { IfOk result (λ number. LacksLeft string_eq
            (Contains self.old.table.held.pairs) name →
            LacksRight nat_eq (Contains self.old.table.held.pairs) number) }
        ensures put { IfOk result (λ number. LacksLeft string_eq
            (Contains self.old.table.held.pairs) name →
            IsWithPut string_eq nat_eq (Contains self.old.table.held.pairs) (name, number)
            (Contains self.new.table.held.pairs)) }
        ensures marks { KeepsMarks string_eq nat_eq self.old.table
            (length self.old.table.entries) self.new.table }
        ensures scopes { self.new.scopes ≡ self.old.scopes }
        ensures unchanged { OnErr result (self.new ≡ self.old) }
    {
        if let Some(&number) = self.table.get_by_left(&name) {
            return Ok(number);
        }
        let Some(number) = self.fresh_number() else {
            return Err(NotInterned::NoNumber);
        };
        let keep = Policy {
            left: OnHeld::Refuse,
            right: OnHeld::Refuse,
        };
        match self.table.insert_with(name, number, keep) {
            Ok(_) => Ok(number),
            Err(NotInsertedWith::Memory(_, _)) => Err(NotInterned::NoMemory),
            Err(_) => Err(NotInterned::NoNumber),
        }
    }

    /// Makes a name mean a number in the innermost scope, and returns whether it shadows something. What the name or
    /// the number meant before has no meaning until the scope ends.
    ///
    /// The function makes one insertion. It allocates for the pair and its record. An `Err` contains both values, and
    /// nothing changes.
    pub fn define(&mut self, name: String, number: u32) -> Result<bool, NoRoom<String, u32>>
        ensures defined { IsRecordedInsertion string_eq nat_eq self.old.table
            (name, number) result self.new.table }
        ensures scopes { self.new.scopes ≡ self.old.scopes }
    {
        self.table.insert(name, number)
    }

    /// Opens a scope. Its mark stands for everything that has a meaning now. The function allocates for the mark. An
    /// `Err` opens no scope.
    pub fn open(&mut self) -> Result<(), AllocError>
        ensures opened { OnOk result (self.new.scopes.items ≡ self.old.scopes.items
            ++ length self.old.table.entries ∷ []) }
        ensures outer { IsBefore string_eq nat_eq self.new.table
            (length self.new.table.entries) self.new.table.held.pairs }
        ensures table { self.new.table ≡ self.old.table }
        ensures unchanged { OnErr result (self.new.scopes.items ≡ self.old.scopes.items) }
    {
        let mark = self.table.mark();
        self.scopes.push(mark)?;
        Ok(())
    }

    /// Closes the innermost scope, and returns whether one was open. Everything that its mark stands for has its
    /// meaning again.
    ///
    /// The function undoes each change since the mark once. It allocates nothing.
    pub fn close(&mut self) -> bool
        ensures closed { OnTrue result ((mark : _)
            × (self.old.scopes.items ≡ self.new.scopes.items ++ mark ∷ [])
            × IsReturn string_eq nat_eq self.old.table mark self.new.table) }
        ensures none_open { OnFalse result ((self.old.scopes.items ≡ [])
            ⊎ ((mark : _) × (self.old.scopes.items ≡ self.new.scopes.items ++ mark ∷ [])
            × (length self.old.table.entries < mark))) }
        ensures unchanged { OnFalse result (self.new.table ≡ self.old.table) }
    {
        let Some(mark) = self.scopes.pop() else {
            return false;
        };
        // No call leaves a mark above the record. This test replaces a proof of that.
        if mark > self.table.mark() {
            return false;
        }
        self.table.back_to(mark);
        true
    }
}
