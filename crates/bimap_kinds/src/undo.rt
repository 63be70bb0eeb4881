//! Insertions undone, and whether one may be.
ghost use Rattle.std.specs.Prelude.{◌↔◌, Contains, IfOk, IsTrue};
ghost use Rattle.bimap_base.specs.Holding.{IsUndoing};
ghost use Rattle.bimap_base.specs.Positions.{StandsUndone};
ghost use Rattle.bimap_base.specs.Undoing.{IsUndoable};

use crate::map::BijectiveMap;
use bimap_any::Bijection;
use bimap_base::{Count, Overwritten, UndoStopped};
use bimap_index::Index;

impl<L: Eq + Drop, R: Eq + Drop, I: Index<L>, J: Index<R>> BijectiveMap<L, R, I, J> {
    ghost use Rattle.bimap_kinds.specs.Held.{holding};

    /// Undoes an insertion: removes the pair of a left, puts back what the insertion overwrote, and returns the removed
    /// pair.
    ///
    /// `answer` is what the insertion returned. In insertion order, a pair that is put back keeps the position of the
    /// removed pair if their lefts are equal. Any other goes to the end.
    ///
    /// Condition: [`can_undo_insert`](Self::can_undo_insert) returns true for the same arguments.
    ///
    /// Time: O(log n) with an ordered side, expected O(1) with two hashed sides. O(capacity) when the capacity grows.
    ///
    /// Memory: It allocates only to put back two pairs when the capacity is used up. The capacity then doubles, to at
    /// least 4.
    ///
    /// `Err`: Out of memory. It hands the answer back, and the map is as before.
    ///
    ///     seats.undo_insert(&'c', Overwritten::Neither); // Ok(('c', 2))
    pub fn undo_insert(
        &mut self,
        left: &L,
        answer: Overwritten<L, R>,
    ) -> Result<(L, R), UndoStopped<L, R>>
        requires undoable { IsUndoable L.eq R.eq (Contains (holding self.old).pairs)
            left.now answer }
        ensures answer { IsUndoing L.eq R.eq (holding self.old) left.now answer result
            (holding self.new) }
        ensures position { I.appends → IfOk result (λ pair. StandsUndone L.eq (holding
            self.old).pairs pair answer (holding self.new).pairs) }
    {
        self.table.undo_insert(left, answer, &mut Count::new())
    }

    /// Returns whether [`undo_insert`](Self::undo_insert) may be called with these arguments.
    ///
    /// It may be called if a pair has the left, and the pairs of the answer share no value with any other pair, nor
    /// with each other.
    ///
    /// Time: At most three searches by left and two by right.
    ///
    ///     seats.can_undo_insert(&'c', &Overwritten::Left('c', 3)); // false
    pub fn can_undo_insert(&self, left: &L, answer: &Overwritten<L, R>) -> bool
        ensures { IsTrue result ↔ IsUndoable L.eq R.eq
            (Contains (holding self.now).pairs) left.now answer.now }
    {
        Bijection::can_undo_insert(self, left, answer)
    }
}
