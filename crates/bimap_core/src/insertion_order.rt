//! The ends of the insertion order, and moves of a pair to them.
ghost use Rattle.std.specs.Prelude.{◌≡◌, ◌+◌, ◌-◌, ◌*◌, ◌≤◌, length, slice_get, option_map};
ghost use Rattle.std.specs.Map.Iter.{TakesFirst, TakesLast, deref_pair};
ghost use Rattle.bimap_base.specs.PairsAt.{pairs_at};
ghost use Rattle.bimap_base.specs.Positions.{ComesLast};
ghost use Rattle.bimap_index.specs.Moves.{ComesFirst, IsMove};

use crate::table::Table;
use bimap_base::{LeftSide, Meter, Query};
use bimap_index::{Index, InsertionOrder, Lookup};

impl<L: Eq, R: Eq, I: Index<L>, J: Index<R>> Table<L, R, InsertionOrder<I>, J> {
    /// Returns the first pair of the iteration, or `None` if the table is empty.
    pub fn first(&self) -> Option<(&L, &R)>
        ensures { option_map deref_pair result
            ≡ slice_get (pairs_at self.now.pairs self.now.left.list.places) 0 }
    {
        let place = self.left.list().first()?;
        Some(self.pairs.held(place))
    }

    /// Returns the last pair of the iteration, or `None` if the table is empty.
    pub fn last(&self) -> Option<(&L, &R)>
        ensures { let pairs = pairs_at self.now.pairs self.now.left.list.places in
            option_map deref_pair result ≡ slice_get pairs (length pairs - 1) }
    {
        let place = self.left.list().last()?;
        Some(self.pairs.held(place))
    }

    /// Removes the first pair of the iteration and returns it, or returns `None` if the table is empty. The room stays.
    pub fn take_first<M: Meter>(&mut self, meter: &mut M) -> Option<(L, R)>
        ensures taken { TakesFirst (λ p. p) (pairs_at self.old.pairs self.old.left.list.places)
            result (pairs_at self.new.pairs self.new.left.list.places) }
        ensures room { length self.new.pairs ≡ length self.old.pairs }
        ensures comparisons { M.comparisons meter.new ≤ M.comparisons meter.old
            + I.effort (length self.old.left.list.places)
            + J.effort (length (J.places self.old.right)) }
        ensures touches { M.touches meter.new ≤ M.touches meter.old
            + 64 * (I.effort (length self.old.left.list.places) + 1)
            + 64 * (J.effort (length (J.places self.old.right)) + 1) }
    {
        let place = self.left.list().first()?;
        Some(self.take(place, meter))
    }

    /// Removes the last pair of the iteration and returns it, or returns `None` if the table is empty. The room stays.
    pub fn take_last<M: Meter>(&mut self, meter: &mut M) -> Option<(L, R)>
        ensures taken { TakesLast (λ p. p) (pairs_at self.old.pairs self.old.left.list.places)
            result (pairs_at self.new.pairs self.new.left.list.places) }
        ensures room { length self.new.pairs ≡ length self.old.pairs }
        ensures comparisons { M.comparisons meter.new ≤ M.comparisons meter.old
            + I.effort (length self.old.left.list.places)
            + J.effort (length (J.places self.old.right)) }
        ensures touches { M.touches meter.new ≤ M.touches meter.old
            + 64 * (I.effort (length self.old.left.list.places) + 1)
            + 64 * (J.effort (length (J.places self.old.right)) + 1) }
    {
        let place = self.left.list().last()?;
        Some(self.take(place, meter))
    }

    /// Moves the pair with this left before all others and returns `true`, or returns `false` if the left is not
    /// contained.
    pub fn to_front<Q: Query<L>, M: Meter>(&mut self, left: Q, meter: &mut M) -> bool
    where
        I: Lookup<L, Q>,
        ensures moved { IsMove (λ p. Q.same p.0 left) ComesFirst
            (pairs_at self.old.pairs self.old.left.list.places) result
            (pairs_at self.new.pairs self.new.left.list.places) }
        ensures pairs { self.new.pairs ≡ self.old.pairs }
        ensures comparisons { M.comparisons meter.new ≤ M.comparisons meter.old
            + I.effort (length self.old.left.list.places) }
        ensures touches { M.touches meter.new ≤ M.touches meter.old
            + I.effort (length self.old.left.list.places) }
    {
        let side = LeftSide::new(&self.pairs);
        let Some(place) = self.left.find_listed(side, left, meter) else {
            return false;
        };
        self.left.to_front(place);
        true
    }

    /// Moves the pair with this left after all others and returns `true`, or returns `false` if the left is not
    /// contained.
    pub fn to_back<Q: Query<L>, M: Meter>(&mut self, left: Q, meter: &mut M) -> bool
    where
        I: Lookup<L, Q>,
        ensures moved { IsMove (λ p. Q.same p.0 left) (λ was p. ComesLast was p p)
            (pairs_at self.old.pairs self.old.left.list.places) result
            (pairs_at self.new.pairs self.new.left.list.places) }
        ensures pairs { self.new.pairs ≡ self.old.pairs }
        ensures comparisons { M.comparisons meter.new ≤ M.comparisons meter.old
            + I.effort (length self.old.left.list.places) }
        ensures touches { M.touches meter.new ≤ M.touches meter.old
            + I.effort (length self.old.left.list.places) }
    {
        let side = LeftSide::new(&self.pairs);
        let Some(place) = self.left.find_listed(side, left, meter) else {
            return false;
        };
        self.left.to_back(place);
        true
    }
}
