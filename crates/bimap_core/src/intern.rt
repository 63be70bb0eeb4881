//! Returning the partner of a left, and inserting it if there is none. Each key is searched once. What the call returns
//! is decided before anything changes.
ghost use Rattle.std.specs.Prelude.{◌≡◌, ◌+◌, ◌*◌, ◌≤◌, ◌++◌, ◌∷◌, [], OnOk, OnErr, Contains, length};
ghost use Rattle.bimap_base.specs.Holding.{IsInterning};
ghost use Rattle.bimap_base.specs.PairsAt.{pairs_at};
ghost use Rattle.bimap_base.specs.Places.{pairs_in};
ghost use Rattle.bimap_base.specs.Sets.{HasLeft, LacksLeft};

use crate::table::Table;
use bimap_base::{Meter, NotInserted};
use bimap_index::Index;

impl<L: Eq + Drop, R: Copy + Eq + Drop, I: Index<L>, J: Index<R>> Table<L, R, I, J> {
    ghost use Rattle.bimap_core.specs.Store.{holding_of};

    /// Returns the right of the pair with an equal left, and changes nothing. If there is no such pair, inserts the new
    /// pair and returns its right.
    ///
    /// It allocates only if it inserts a pair and no place is free. An `Err` gives the pair back, and nothing has
    /// changed.
    pub fn get_by_left_or_insert<M: Meter>(
        &mut self,
        left: L,
        right: R,
        meter: &mut M,
    ) -> Result<R, NotInserted<L, R>>
        ensures answer { IsInterning L.eq R.eq (holding_of self.old.pairs) (left, right) result
            (holding_of self.new.pairs) }
        ensures position { I.appends → LacksLeft L.eq (Contains (pairs_in self.old.pairs)) left →
            OnOk result (pairs_at self.new.pairs (I.places self.new.left)
            ≡ pairs_at self.old.pairs (I.places self.old.left) ++ (left, right) ∷ []) }
        ensures held_slots { HasLeft L.eq (Contains (pairs_in self.old.pairs)) left →
            self.new.pairs ≡ self.old.pairs }
        ensures held_places { HasLeft L.eq (Contains (pairs_in self.old.pairs)) left →
            I.places self.new.left ≡ I.places self.old.left }
        ensures slots { OnErr result (self.new.pairs ≡ self.old.pairs) }
        ensures places { OnErr result (I.places self.new.left ≡ I.places self.old.left) }
        ensures comparisons { M.comparisons meter.new ≤ M.comparisons meter.old
            + I.effort (length (I.places self.old.left))
            + J.effort (length (J.places self.old.right)) }
        ensures touches { M.touches meter.new ≤ M.touches meter.old
            + 65 * (I.effort (length (I.places self.old.left)) + 1)
            + 65 * (J.effort (length (J.places self.old.right)) + 1) }
    {
        let mut left_spot = self.left.spot();
        if let Some(place) = self.finish_left(self.left.start(), &left, &mut left_spot, meter) {
            let Some((_, held)) = self.pairs.at(place) else {
                unreachable!()
            };
            return Ok(*held);
        }
        let mut right_spot = self.right.spot();
        if self
            .finish_right(None, self.right.start(), &right, &mut right_spot, meter)
            .is_some()
        {
            return Err(NotInserted::Occupied(left, right));
        }
        if self.make_room().is_err() {
            return Err(NotInserted::Memory(left, right));
        }
        let _place = self.put(left, right, &left_spot, &right_spot, meter);
        Ok(right)
    }
}
