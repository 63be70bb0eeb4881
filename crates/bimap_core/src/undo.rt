//! Undoing insertions. This module does not check whether an insertion may be undone.
ghost use Rattle.std.specs.Prelude.{◌≡◌, ◌<◌, ◌≤◌, ◌+◌, ◌*◌, ◌++◌, ◌∷◌, [], ℕ, length, Some, None, IfOk, OnErr, Contains, slice_set};
ghost use Rattle.bimap_base.specs.Holding.{IsUndoing};
ghost use Rattle.bimap_base.specs.PairsAt.{pairs_at};
ghost use Rattle.bimap_base.specs.Places.{IsFoundAt};
ghost use Rattle.bimap_base.specs.Slots.{pair_at, IsLive, pair_count};
ghost use Rattle.bimap_base.specs.Positions.{StandsFor, StandsUndone};
ghost use Rattle.bimap_base.specs.Undoing.{IsUndoable};

use crate::slot_update::renew;
use crate::table::Table;
use bimap_base::{LeftSide, Meter, Overwritten, RightSide, UndoStopped};
use bimap_index::Index;

impl<L: Eq, R: Eq, I: Index<L>, J: Index<R>> Table<L, R, I, J> {
    ghost use Rattle.bimap_core.specs.Store.{holding_of, IsAloneAt};

    /// Removes the pair with this left and returns it. Puts the overwritten pairs back that `answer` contains.
    ///
    /// It allocates only if `answer` is `Both` and no place is free. An `Err` gives `answer` back, and nothing has
    /// changed. It takes as long as an insertion.
    pub fn undo_insert<M: Meter>(
        &mut self,
        left: &L,
        answer: Overwritten<L, R>,
        meter: &mut M,
    ) -> Result<(L, R), UndoStopped<L, R>>
        requires undoable { IsUndoable L.eq R.eq (Contains (holding_of self.old.pairs).pairs)
            left.now answer }
        ensures answer { IsUndoing L.eq R.eq (holding_of self.old.pairs) left.now answer result
            (holding_of self.new.pairs) }
        ensures position { I.appends → IfOk result (λ pair. StandsUndone L.eq
            (pairs_at self.old.pairs (I.places self.old.left)) pair answer
            (pairs_at self.new.pairs (I.places self.new.left))) }
        ensures slots { OnErr result (self.new.pairs ≡ self.old.pairs) }
        ensures places { OnErr result (I.places self.new.left ≡ I.places self.old.left) }
    {
        let Some(place) = self.left_place(left, meter) else {
            unreachable!();
        };
        match answer {
            Overwritten::Neither => Ok(self.take(place, meter)),
            Overwritten::Left(l, r) | Overwritten::Right(l, r) | Overwritten::Pair(l, r) => {
                Ok(self.replace(place, l, r, meter))
            }
            Overwritten::Both(first, second) => {
                if self.make_room().is_err() {
                    return Err(UndoStopped {
                        answer: Overwritten::Both(first, second),
                    });
                }
                let old = self.replace(place, first.0, first.1, meter);
                let _place = self.put_new(second.0, second.1, meter);
                Ok(old)
            }
        }
    }

    // Returns the place with an equal left, if there is one.
    fn left_place<M: Meter>(&self, left: &L, meter: &mut M) -> Option<usize>
        ensures found { IsFoundAt (λ p. p.0) L.eq self.now.pairs left.now result }
        ensures comparisons { M.comparisons meter.new ≤ M.comparisons meter.old
            + I.effort (length (I.places self.now.left)) }
        ensures touches { M.touches meter.new ≤ M.touches meter.old
            + I.effort (length (I.places self.now.left)) }
    {
        self.left.find(LeftSide::new(&self.pairs), left, meter)
    }

    // Puts a pair in the place of another one, which it returns. It finds out which values are new. An index whose key
    // is equal stays as it is.
    fn replace<M: Meter>(&mut self, place: usize, left: L, right: R, meter: &mut M) -> (L, R)
        requires live { IsLive self.old.pairs place }
        requires alone { IsAloneAt L.eq R.eq self.old.pairs place (left, right) }
        ensures was { pair_at self.old.pairs place ≡ Some result }
        ensures pairs { self.new.pairs ≡ slice_set self.old.pairs place (Some (left, right)) }
        ensures count { pair_count self.new.pairs ≡ pair_count self.old.pairs }
        ensures position { I.appends → StandsFor L.eq
            (pairs_at self.old.pairs (I.places self.old.left)) result (left, right)
            (pairs_at self.new.pairs (I.places self.new.left)) }
        ensures comparisons { M.comparisons meter.new ≤ M.comparisons meter.old
            + 3 * I.effort (length (I.places self.old.left))
            + 3 * J.effort (length (J.places self.old.right)) }
        ensures touches { M.touches meter.new ≤ M.touches meter.old
            + 128 * (I.effort (length (I.places self.old.left)) + 1)
            + 128 * (J.effort (length (J.places self.old.right)) + 1) }
    {
        let lefts = LeftSide::new(&self.pairs);
        let left_spot = renew(&self.left, lefts, place, &left, meter);
        let rights = RightSide::new(&self.pairs);
        let right_spot = renew(&self.right, rights, place, &right, meter);
        let spots = (left_spot.as_ref(), right_spot.as_ref());
        self.swap(place, left, right, spots, meter)
    }

    // Puts a pair into a free place and returns that place. The pair shares no value with another one.
    fn put_new<M: Meter>(&mut self, left: L, right: R, meter: &mut M) -> usize
        requires free { pair_count self.old.pairs < length self.old.pairs }
        requires alone { (place : ℕ) → pair_at self.old.pairs place ≡ None →
            IsAloneAt L.eq R.eq self.old.pairs place (left, right) }
        ensures there { result < length self.old.pairs }
        ensures was_free { pair_at self.old.pairs result ≡ None }
        ensures pairs { self.new.pairs ≡ slice_set self.old.pairs result (Some (left, right)) }
        ensures position { I.appends → pairs_at self.new.pairs (I.places self.new.left)
            ≡ pairs_at self.old.pairs (I.places self.old.left) ++ (left, right) ∷ [] }
        ensures comparisons { M.comparisons meter.new ≤ M.comparisons meter.old
            + I.effort (length (I.places self.old.left))
            + J.effort (length (J.places self.old.right)) }
        ensures touches { M.touches meter.new ≤ M.touches meter.old
            + 64 * (I.effort (length (I.places self.old.left)) + 1)
            + 64 * (J.effort (length (J.places self.old.right)) + 1) }
    {
        let left_spot = self.left.spot_for(&left);
        let right_spot = self.right.spot_for(&right);
        let place = self.pairs.put(left, right);
        self.left
            .relink(LeftSide::new(&self.pairs), place, &left_spot, meter);
        self.right
            .relink(RightSide::new(&self.pairs), place, &right_spot, meter);
        place
    }
}
