//! Every map as a `Bijection`, by the map's own calls.
ghost use Rattle.std.specs.Prelude.{[], Contains, IfOk};
ghost use Rattle.bimap_base.specs.Holding.{IsUndoing};
ghost use Rattle.bimap_base.specs.Positions.{StandsUndone};
ghost use Rattle.bimap_base.specs.Undoing.{IsUndoable};
ghost use Rattle.bimap_kinds.specs.Held.{holding};

use crate::map::BijectiveMap;
use bimap_any::{Bijection, Interning};
use bimap_base::{NoMemory, NotInserted, NotInsertedWith, Overwritten, Policy, UndoStopped};
use bimap_index::Index;

impl<L: Eq + Drop, R: Eq + Drop, I: Index<L>, J: Index<R>> Bijection<L, R>
    for BijectiveMap<L, R, I, J> {
    ghost holding = { holding };

    ghost appends = { I.appends };

    ghost lenders = { λ b. [] };

    ghost apart = { λ b. b.apart };

    ghost fits = { λ b. b.fits };

    fn len(&self) -> usize {
        BijectiveMap::len(self)
    }

    fn capacity(&self) -> usize {
        BijectiveMap::capacity(self)
    }

    fn get_by_left(&self, left: &L) -> Option<&R> {
        BijectiveMap::get_by_left(self, left)
    }

    fn get_by_right(&self, right: &R) -> Option<&L> {
        BijectiveMap::get_by_right(self, right)
    }

    fn insert_with(
        &mut self,
        left: L,
        right: R,
        policy: Policy,
    ) -> Result<Overwritten<L, R>, NotInsertedWith<L, R>> {
        BijectiveMap::insert_with(self, left, right, policy)
    }

    fn remove_by_left(&mut self, left: &L) -> Option<(L, R)> {
        BijectiveMap::remove_by_left(self, left)
    }

    fn remove_by_right(&mut self, right: &R) -> Option<(L, R)> {
        BijectiveMap::remove_by_right(self, right)
    }

    fn for_each<F: FnMut(&L, &R)>(&self, f: F) {
        self.table.for_each(f)
    }

    fn retain<F: FnMut(&L, &R) -> bool>(&mut self, f: F) {
        self.retain_by_place(f)
    }

    fn clear(&mut self) {
        BijectiveMap::clear(self)
    }

    fn reserve(&mut self, more: usize) -> Result<(), NoMemory> {
        BijectiveMap::reserve(self, more)
    }

    fn undo_insert(
        &mut self,
        left: &L,
        answer: Overwritten<L, R>,
    ) -> Result<(L, R), UndoStopped<L, R>>
        requires undoable { IsUndoable L.eq R.eq (Contains (holding self.old).pairs)
            left.now answer }
        ensures answer { IsUndoing L.eq R.eq (holding self.old) left.now answer result
            (holding self.new) }
        ensures position { I.appends → IfOk result (λ pair. StandsUndone L.eq (holding
            self.old).pairs pair answer (holding self.new).pairs) }
    {
        BijectiveMap::undo_insert(self, left, answer)
    }
}

impl<L: Eq + Drop, R: Copy + Eq + Drop, I: Index<L>, J: Index<R>> Interning<L, R>
    for BijectiveMap<L, R, I, J> {
    fn get_by_left_or_insert(&mut self, left: L, right: R) -> Result<R, NotInserted<L, R>> {
        BijectiveMap::get_by_left_or_insert(self, left, right)
    }
}
