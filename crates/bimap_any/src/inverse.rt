//! The view. It uses calls of `Bijection` alone.
ghost use Rattle.std.specs.Prelude.{◌≡◌, ◌∷◌, Contains, IfOk};
ghost use Rattle.bimap_base.specs.Holding.{IsUndoing};
ghost use Rattle.bimap_base.specs.Positions.{StandsUndone};
ghost use Rattle.bimap_base.specs.Undoing.{IsUndoable};
ghost use Rattle.bimap_base.proofs.Inverse.{apart_inverse, fits_inverse};
ghost use Rattle.bimap_any.specs.Exchanged.{inverse_holding};

mod exchanged;
mod undo;

use crate::bijection::Bijection;
use crate::inverse::exchanged::{exchange_answer, exchange_pair};
use crate::inverse::undo::undo;
use bimap_base::{NoMemory, NotInsertedWith, Overwritten, Policy, UndoStopped};

/// A borrowed map seen with its sides exchanged: its lefts are the rights of the map, and its rights the lefts.
///
/// Each call is a call of the map, so all changes stay in the map. It costs what the map's call of the other side
/// costs, with two exceptions. `insert_with` may make one more search before it refuses a pair. `undo_insert` makes a
/// removal, and an insertion for each pair that it puts back.
///
///     let mut rooms = Inverse::new(&mut seats);
///     rooms.get_by_left(&3); // Some(&'a')
///     rooms.remove_by_left(&3); // Some((3, 'a'))
///     seats.get_by_left(&'a'); // None
#[derive(Drop)]
pub struct Inverse<'a, B> {
    bimap: &'a mut B,
}

impl<'a, B> Inverse<'a, B> {
    /// Returns the map seen with its sides exchanged.
    ///
    /// It moves no pair.
    ///
    /// Time: O(1).
    pub fn new(bimap: &'a mut B) -> Inverse<'a, B>
        ensures same { result.bimap.now ≡ bimap.old }
        ensures same_reference { result.bimap.ghost_name ≡ bimap.entry.ghost_name }
    {
        Inverse { bimap }
    }
}

impl<L: Eq + Drop, R: Eq + Drop, B: Bijection<L, R>> Bijection<R, L> for Inverse<'_, B> {
    ghost holding = { λ i. inverse_holding (B.holding i.bimap.now) };

    ghost appends = { ⊥ };

    ghost lenders = { λ i. i.bimap.ghost_name ∷ B.lenders i.bimap.now };

    ghost apart = { λ i. apart_inverse L.eq R.eq (B.holding i.bimap.now).pairs
        (B.apart i.bimap.now) };

    ghost fits = { λ i. fits_inverse (B.holding i.bimap.now) (B.fits i.bimap.now) };

    fn len(&self) -> usize {
        self.bimap.len()
    }

    fn capacity(&self) -> usize {
        self.bimap.capacity()
    }

    fn get_by_left(&self, left: &R) -> Option<&L> {
        self.bimap.get_by_right(left)
    }

    fn get_by_right(&self, right: &L) -> Option<&R> {
        self.bimap.get_by_left(right)
    }

    fn insert_with(
        &mut self,
        left: R,
        right: L,
        policy: Policy,
    ) -> Result<Overwritten<R, L>, NotInsertedWith<R, L>> {
        let keep_left = policy.left.refuses();
        let exchanged = Policy {
            left: policy.right,
            right: policy.left,
        };
        match self.bimap.insert_with(right, left, exchanged) {
            Ok(answer) => Ok(exchange_answer(answer)),
            Err(NotInsertedWith::LeftHeld(right, left)) => {
                if keep_left && self.bimap.contains_right(&left) {
                    Err(NotInsertedWith::LeftHeld(left, right))
                } else {
                    Err(NotInsertedWith::RightHeld(left, right))
                }
            }
            Err(NotInsertedWith::RightHeld(right, left)) => {
                Err(NotInsertedWith::LeftHeld(left, right))
            }
            Err(NotInsertedWith::Memory(right, left)) => Err(NotInsertedWith::Memory(left, right)),
        }
    }

    fn remove_by_left(&mut self, left: &R) -> Option<(R, L)> {
        exchange_pair(self.bimap.remove_by_right(left))
    }

    fn remove_by_right(&mut self, right: &L) -> Option<(R, L)> {
        exchange_pair(self.bimap.remove_by_left(right))
    }

    fn for_each<F: FnMut(&R, &L)>(&self, mut f: F) {
        self.bimap.for_each(
            move |left: &L, right: &R|
                requires { F.pre f right left }
            { f(right, left) },
        )
    }

    fn retain<F: FnMut(&R, &L) -> bool>(&mut self, mut f: F) {
        self.bimap.retain(
            move |left: &L, right: &R| -> bool
                requires { F.pre f right left }
            { f(right, left) },
        )
    }

    fn clear(&mut self) {
        self.bimap.clear()
    }

    fn reserve(&mut self, more: usize) -> Result<(), NoMemory> {
        self.bimap.reserve(more)
    }

    fn undo_insert(
        &mut self,
        left: &R,
        answer: Overwritten<R, L>,
    ) -> Result<(R, L), UndoStopped<R, L>>
        requires undoable { IsUndoable R.eq L.eq
            (Contains (inverse_holding (B.holding self.old.bimap.now)).pairs) left.now answer }
        ensures answer { IsUndoing R.eq L.eq (inverse_holding (B.holding self.old.bimap.now))
            left.now answer result (inverse_holding (B.holding self.new.bimap.now)) }
        ensures position { ⊥ → IfOk result (λ pair. StandsUndone R.eq
            (inverse_holding (B.holding self.old.bimap.now)).pairs pair answer
            (inverse_holding (B.holding self.new.bimap.now)).pairs) }
        ensures lenders { (self.new.bimap.ghost_name ∷ B.lenders self.new.bimap.now)
            ≡ (self.old.bimap.ghost_name ∷ B.lenders self.old.bimap.now) }
    {
        undo(self.bimap, left, answer)
    }
}
