//! The map. This module knows only the vector, and what searches and changes it.
ghost use Rattle.std.specs.Prelude.{◌≡◌, ◌≤◌, [], length, Contains, IfOk, vec_capacity};
ghost use Rattle.bimap_base.specs.Sets.{IsApart};
ghost use Rattle.bimap_base.specs.Holding.{IsUndoing};
ghost use Rattle.bimap_base.specs.Positions.{StandsUndone};
ghost use Rattle.bimap_base.specs.Undoing.{IsUndoable};
ghost use Rattle.test_support.specs.Plain.{shown};

mod changes;
mod scan;

use bimap_any::{Bijection, Interning};
use bimap_base::{NoMemory, NotInsertedWith, Overwritten, Policy, UndoStopped};
use std::alloc::Global;

/// A map of pairs in a vector. The capacity of the vector is the capacity of the map.
#[derive(Drop)]
pub struct Plain<L: Eq + Drop, R: Eq + Drop> {
    pairs: Vec<(L, R)>,
    /// No two of the contained pairs share a value.
    pub ghost apart: { IsApart L.eq R.eq pairs.items },
    /// There is a place for each contained pair.
    pub ghost fits: { length pairs.items ≤ vec_capacity pairs },
}

impl<L: Eq + Drop, R: Eq + Drop> Plain<L, R> {
    /// Returns a map without pairs and without capacity. When it is full, an insertion makes one more place.
    pub fn new(alloc: Global) -> Self
        ensures { result.pairs.items ≡ [] }
    {
        Plain {
            pairs: Vec::new(alloc),
        }
    }
}

impl<L: Eq + Drop, R: Eq + Drop> Bijection<L, R> for Plain<L, R> {
    ghost holding = { λ s. shown s.pairs.items (vec_capacity s.pairs) };

    ghost appends = { ⊥ };

    ghost lenders = { λ s. [] };

    fn len(&self) -> usize {
        self.pairs.len()
    }

    fn capacity(&self) -> usize {
        self.pairs.capacity()
    }

    fn get_by_left(&self, left: &L) -> Option<&R> {
        match scan::find_left(&self.pairs, left) {
            None => None,
            Some(pair) => Some(&pair.1),
        }
    }

    fn get_by_right(&self, right: &R) -> Option<&L> {
        match scan::find_right(&self.pairs, right) {
            None => None,
            Some(pair) => Some(&pair.0),
        }
    }

    fn insert_with(
        &mut self,
        left: L,
        right: R,
        policy: Policy,
    ) -> Result<Overwritten<L, R>, NotInsertedWith<L, R>> {
        changes::insert_with(&mut self.pairs, left, right, policy)
    }

    fn remove_by_left(&mut self, left: &L) -> Option<(L, R)> {
        scan::take_left(&mut self.pairs, left)
    }

    fn remove_by_right(&mut self, right: &R) -> Option<(L, R)> {
        scan::take_right(&mut self.pairs, right)
    }

    fn for_each<F: FnMut(&L, &R)>(&self, f: F) {
        scan::visit(&self.pairs, f)
    }

    fn retain<F: FnMut(&L, &R) -> bool>(&mut self, f: F) {
        changes::keep(&mut self.pairs, f)
    }

    fn clear(&mut self) {
        self.pairs.clear();
    }

    fn reserve(&mut self, more: usize) -> Result<(), NoMemory> {
        changes::reserve(&mut self.pairs, more)
    }

    fn undo_insert(
        &mut self,
        left: &L,
        answer: Overwritten<L, R>,
    ) -> Result<(L, R), UndoStopped<L, R>>
        requires undoable { IsUndoable L.eq R.eq (Contains self.old.pairs.items) left.now answer }
        ensures answer { IsUndoing L.eq R.eq
            (shown self.old.pairs.items (vec_capacity self.old.pairs)) left.now answer result
            (shown self.new.pairs.items (vec_capacity self.new.pairs)) }
        ensures position { ⊥ → IfOk result (λ pair. StandsUndone L.eq self.old.pairs.items pair
            answer self.new.pairs.items) }
    {
        changes::undo(&mut self.pairs, left, answer)
    }

    ghost apart = { λ s. s.apart };

    ghost fits = { λ s. s.fits };
}

impl<L: Eq + Drop, R: Copy + Eq + Drop> Interning<L, R> for Plain<L, R> {}
