//! The interface that all maps share.
ghost use Rattle.std.specs.Prelude.{◌≡◌, ◌≤◌, ◌↔◌, ◌++◌, ◌∷◌, [], List, length, Contains, IfOk, OnOk, MatchOption, IsTrue, not};
ghost use Rattle.std.specs.Borrow.{GName};
ghost use Rattle.bimap_any.specs.Capacity.{IsReservation};
ghost use Rattle.bimap_any.specs.Fitting.{FitsLeft, FitsRight, Fits};
ghost use Rattle.bimap_base.specs.Sets.{shares, IsApart, HasLeft, HasRight};
ghost use Rattle.bimap_base.specs.Holding.{Holding, IsFoundByLeft, IsFoundByRight, IsInsertion, IsInsertionWithoutOverwriting, IsInsertionUnder, IsRemovalByLeft, IsRemovalByRight, IsRetention, IsUndoing};
ghost use Rattle.bimap_base.specs.Kept.{MayTest};
ghost use Rattle.bimap_base.specs.Positions.{IsTakenOut, StandsInOrder, StandsUndone};
ghost use Rattle.bimap_base.specs.Undoing.{IsUndoable};
ghost use Rattle.bimap_any.specs.Visited.{MayVisit, IsVisited};

use bimap_base::{
    NoMemory, NoRoom, NotInserted, NotInsertedWith, OnHeld, Overwritten, Policy, UndoStopped,
};

/// A map of any kind: a set of pairs in which each left has one right, and each right one left.
///
/// The five maps implement it, and so does `Inverse`. A function over any `Bijection` works with each of them.
///
/// Contracts see the pairs of a map and its capacity. No call lowers the capacity. An `Err` leaves both as they were
/// and hands back what was given. A call runs out of memory only if it needs more capacity than is spare. What a call
/// costs depends on the map: see `BijectiveMap` and `Inverse`.
pub trait Bijection<L: Eq + Drop, R: Eq + Drop> {
    /// The pairs, each once, and the capacity.
    ghost holding: { Self → Holding L R };

    /// The pairs are in insertion order.
    ghost appends: { Type 0 };

    /// The ghost names of the references by which the pairs are reached, the outermost first. There are none if the map
    /// owns its pairs.
    ghost lenders: { Self → List GName };

    /// Returns the number of pairs.
    ///
    /// Time: O(1).
    fn len(&self) -> usize
        ensures { result ≡ length (holding self.now).pairs };

    /// Returns the number of pairs for which the map has space.
    ///
    /// Time: O(1).
    fn capacity(&self) -> usize
        ensures { result ≡ (holding self.now).room };

    /// Returns the right of a left, or `None` if the map does not contain the left.
    ///
    /// Time: That of the map's own look-up by left.
    fn get_by_left(&self, left: &L) -> Option<&R>
        ensures { IsFoundByLeft L.eq (holding self.now) left.now result };

    /// Returns the left of a right, or `None` if the map does not contain the right.
    ///
    /// Time: That of the map's own look-up by right.
    fn get_by_right(&self, right: &R) -> Option<&L>
        ensures { IsFoundByRight R.eq (holding self.now) right.now result };

    /// Inserts a pair if the policy allows it, and returns the pairs that it overwrote.
    ///
    /// Time: That of the map's own insertion.
    ///
    /// Memory: It allocates only if it overwrites nothing and the capacity is used up.
    ///
    /// `Err`: The policy refuses to overwrite a contained value (`LeftHeld`, `RightHeld`), or out of memory (`Memory`).
    /// It hands the pair back, and the map is as before.
    fn insert_with(
        &mut self,
        left: L,
        right: R,
        policy: Policy,
    ) -> Result<Overwritten<L, R>, NotInsertedWith<L, R>>
        ensures answer { IsInsertionUnder L.eq R.eq (holding self.old) (left, right) policy result
            (holding self.new) }
        ensures position { appends → IfOk result (λ answer. StandsInOrder (holding self.old).pairs
            (left, right) answer (holding self.new).pairs) }
        ensures lenders { lenders self.new ≡ lenders self.old };

    /// Removes the pair of a left and returns it, or returns `None` if the map does not contain the left.
    ///
    /// Time: That of the map's own removal by left.
    fn remove_by_left(&mut self, left: &L) -> Option<(L, R)>
        ensures answer { IsRemovalByLeft L.eq (holding self.old) left.now result
            (holding self.new) }
        ensures position { appends → MatchOption result
            ((holding self.new).pairs ≡ (holding self.old).pairs)
            (λ pair. IsTakenOut (holding self.old).pairs pair (holding self.new).pairs) }
        ensures lenders { lenders self.new ≡ lenders self.old };

    /// Removes the pair of a right and returns it, or returns `None` if the map does not contain the right.
    ///
    /// Time: That of the map's own removal by right.
    fn remove_by_right(&mut self, right: &R) -> Option<(L, R)>
        ensures answer { IsRemovalByRight R.eq (holding self.old) right.now result
            (holding self.new) }
        ensures position { appends → MatchOption result
            ((holding self.new).pairs ≡ (holding self.old).pairs)
            (λ pair. IsTakenOut (holding self.old).pairs pair (holding self.new).pairs) }
        ensures lenders { lenders self.new ≡ lenders self.old };

    /// Calls the closure once on each pair, in no set order.
    ///
    /// Condition: Any condition of the closure holds at each pair, whatever the order of the pairs.
    ///
    /// Time: O(capacity).
    ///
    ///     // the sum of the seats
    ///     let mut sum = 0u32;
    ///     seats.for_each(|_: &char, seat: &u32| sum = sum.wrapping_add(*seat));
    fn for_each<F: FnMut(&L, &R)>(&self, f: F)
        requires may { MayVisit F.FnMut f (holding self.now).pairs }
        ensures { IsVisited F.FnMut f (holding self.now).pairs };

    /// Keeps the pairs for which the closure returns true, and asks it once for each pair, in no set order.
    ///
    /// A map whose own `retain` asks in the order of `iter` asks in no set order here.
    ///
    /// Condition: Any condition of the closure holds at each pair, whatever the order of the pairs.
    ///
    /// Time: O(capacity), and that of a removal for each pair that goes.
    fn retain<F: FnMut(&L, &R) -> bool>(&mut self, f: F)
        requires may { MayTest F.FnMut f (holding self.old).pairs }
        ensures retained { IsRetention F.FnMut (holding self.old) f (holding self.new) }
        ensures lenders { lenders self.new ≡ lenders self.old };

    /// Removes all pairs and keeps the capacity.
    ///
    /// Time: O(capacity).
    fn clear(&mut self)
        ensures pairs { (holding self.new).pairs ≡ [] }
        ensures room { (holding self.new).room ≡ (holding self.old).room }
        ensures lenders { lenders self.new ≡ lenders self.old };

    /// Grows the capacity to exactly the length plus `more`, unless it is that large already.
    ///
    /// Time: O(new capacity) if it grows, otherwise O(1).
    ///
    /// Memory: It allocates for the new capacity, if it grows.
    ///
    /// `Err`: Out of memory. Pairs and capacity are as before, and the map may use more memory than before.
    ///
    ///     // after this, two insertions can't be refused
    ///     seats.reserve(2)?;
    fn reserve(&mut self, more: usize) -> Result<(), NoMemory>
        ensures answer { IsReservation (holding self.old) more result (holding self.new) }
        ensures lenders { lenders self.new ≡ lenders self.old };

    /// Undoes an insertion: removes the pair of a left, puts back what the insertion overwrote, and returns the removed
    /// pair.
    ///
    /// `answer` is what the insertion returned. In insertion order, a pair that is put back keeps the position of the
    /// removed pair if their lefts are equal. Any other goes to the end.
    ///
    /// Condition: `can_undo_insert` returns true for the same arguments.
    ///
    /// Time: That of the map's own `undo_insert`.
    ///
    /// Memory: It allocates only to put back two pairs when the capacity is used up.
    ///
    /// `Err`: Out of memory. It hands the answer back, and the map is as before.
    fn undo_insert(
        &mut self,
        left: &L,
        answer: Overwritten<L, R>,
    ) -> Result<(L, R), UndoStopped<L, R>>
        requires undoable { IsUndoable L.eq R.eq (Contains (holding self.old).pairs)
            left.now answer }
        ensures answer { IsUndoing L.eq R.eq (holding self.old) left.now answer result
            (holding self.new) }
        ensures position { appends → IfOk result (λ pair. StandsUndone L.eq (holding self.old).pairs
            pair answer (holding self.new).pairs) }
        ensures lenders { lenders self.new ≡ lenders self.old };

    /// Returns whether the map contains no pairs.
    ///
    /// Time: O(1).
    final fn is_empty(&self) -> bool
        ensures { IsTrue result ↔ ((holding self.now).pairs ≡ []) }
    {
        self.len() == 0
    }

    /// Returns whether the map contains the left.
    ///
    /// Time: That of `get_by_left`.
    final fn contains_left(&self, left: &L) -> bool
        ensures { IsTrue result ↔ HasLeft L.eq (Contains (holding self.now).pairs) left.now }
    {
        self.get_by_left(left).is_some()
    }

    /// Returns whether the map contains the right.
    ///
    /// Time: That of `get_by_right`.
    final fn contains_right(&self, right: &R) -> bool
        ensures { IsTrue result ↔ HasRight R.eq (Contains (holding self.now).pairs) right.now }
    {
        self.get_by_right(right).is_some()
    }

    /// Inserts a pair and returns the pairs that it overwrote.
    ///
    /// Time: That of `insert_with`.
    ///
    /// Memory: It allocates only if it overwrites nothing and the capacity is used up.
    ///
    /// `Err`: Out of memory. It hands the pair back, and the map is as before.
    final fn insert(&mut self, left: L, right: R) -> Result<Overwritten<L, R>, NoRoom<L, R>>
        ensures answer { IsInsertion L.eq R.eq (holding self.old) (left, right) result
            (holding self.new) }
        ensures position { appends → IfOk result (λ answer. StandsInOrder (holding self.old).pairs
            (left, right) answer (holding self.new).pairs) }
        ensures lenders { lenders self.new ≡ lenders self.old }
    {
        let policy = Policy {
            left: OnHeld::Overwrite,
            right: OnHeld::Overwrite,
        };
        match self.insert_with(left, right, policy) {
            Ok(answer) => Ok(answer),
            Err(NotInsertedWith::Memory(left, right)) => Err(NoRoom { left, right }),
            Err(_) => unreachable!(),
        }
    }

    /// Inserts a pair if the map contains neither of its values.
    ///
    /// Time: That of `insert_with`.
    ///
    /// Memory: It allocates only if it inserts and the capacity is used up.
    ///
    /// `Err`: The map contains one of the values (`Occupied`), or out of memory (`Memory`). It hands the pair back, and
    /// the map is as before.
    final fn insert_no_overwrite(&mut self, left: L, right: R) -> Result<(), NotInserted<L, R>>
        ensures answer { IsInsertionWithoutOverwriting L.eq R.eq (holding self.old) (left, right)
            result (holding self.new) }
        ensures position { appends → OnOk result ((holding self.new).pairs
            ≡ (holding self.old).pairs ++ (left, right) ∷ []) }
        ensures lenders { lenders self.new ≡ lenders self.old }
    {
        let policy = Policy {
            left: OnHeld::Refuse,
            right: OnHeld::Refuse,
        };
        match self.insert_with(left, right, policy) {
            Ok(_) => Ok(()),
            Err(NotInsertedWith::LeftHeld(left, right)) => Err(NotInserted::Occupied(left, right)),
            Err(NotInsertedWith::RightHeld(left, right)) => Err(NotInserted::Occupied(left, right)),
            Err(NotInsertedWith::Memory(left, right)) => Err(NotInserted::Memory(left, right)),
        }
    }

    /// Returns whether `undo_insert` may be called with these arguments.
    ///
    /// It may be called if a pair has the left, and the pairs of the answer share no value with any other pair, nor
    /// with each other.
    ///
    /// Time: At most three searches by left and two by right.
    final fn can_undo_insert(&self, left: &L, answer: &Overwritten<L, R>) -> bool
        ensures { IsTrue result ↔ IsUndoable L.eq R.eq
            (Contains (holding self.now).pairs) left.now answer.now }
    {
        if !self.contains_left(left) {
            return false;
        }
        match answer {
            Overwritten::Neither => true,
            Overwritten::Left(l, r) | Overwritten::Right(l, r) | Overwritten::Pair(l, r) => {
                self.fits_beside(left, l, r)
            }
            Overwritten::Both(first, second) => {
                self.fits_beside(left, &first.0, &first.1)
                    && self.fits_beside(left, &second.0, &second.1)
                    && are_apart(first, second)
            }
        }
    }

    /// Returns whether a pair shares a value with none but that of `left`.
    ///
    /// It is a part of `can_undo_insert`.
    ///
    /// Time: At most a search by left and one by right.
    final fn fits_beside(&self, left: &L, l: &L, r: &R) -> bool
        ensures { IsTrue result ↔ Fits L.eq R.eq (Contains (holding self.now).pairs) left.now
            (l.now, r.now) }
    {
        self.fits_left(left, l) && self.fits_right(left, r)
    }

    /// Returns whether no pair but that of `left` has the left `l`.
    ///
    /// It is a part of `can_undo_insert`.
    ///
    /// Time: At most a search by left.
    final fn fits_left(&self, left: &L, l: &L) -> bool
        ensures { IsTrue result ↔ FitsLeft L.eq (Contains (holding self.now).pairs) left.now l.now }
    {
        *l == *left || !self.contains_left(l)
    }

    /// Returns whether no pair but that of `left` has the right `r`.
    ///
    /// It is a part of `can_undo_insert`.
    ///
    /// Time: A search by right.
    final fn fits_right(&self, left: &L, r: &R) -> bool
        ensures { IsTrue result ↔ FitsRight L.eq R.eq
            (Contains (holding self.now).pairs) left.now r.now }
    {
        match self.get_by_right(r) {
            None => true,
            Some(found) => *found == *left,
        }
    }

    /// No two of the pairs share a value.
    ghost apart: { (bimap : Self) → IsApart L.eq R.eq (holding bimap).pairs };

    /// There is a place for each pair.
    ghost fits: { (bimap : Self) → length (holding bimap).pairs ≤ (holding bimap).room };
}

// Returns whether two pairs share no value.
fn are_apart<L: Eq, R: Eq>(first: &(L, R), second: &(L, R)) -> bool
    ensures { result ≡ not (shares L.eq R.eq first.now second.now) }
{
    !(first.0 == second.0 || first.1 == second.1)
}
