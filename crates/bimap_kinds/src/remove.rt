//! Removals. The capacity stays.
ghost use Rattle.std.specs.Prelude.{◌≡◌, ◌+◌, ◌*◌, ◌≤◌, [], length, MatchOption};
ghost use Rattle.bimap_base.specs.Holding.{IsRemovalByLeft, IsRemovalByRight};
ghost use Rattle.bimap_base.specs.Positions.{IsTakenOut};

use crate::map::BijectiveMap;
use bimap_base::{Count, Meter, Query};
use bimap_index::{Index, Lookup};

impl<L: Eq, R: Eq, I: Index<L>, J: Index<R>> BijectiveMap<L, R, I, J> {
    ghost use Rattle.bimap_kinds.specs.Held.{holding};

    /// Removes the pair of a left and returns it, or returns `None` if the map does not contain the left.
    ///
    /// The capacity stays, and so does the insertion order of the other pairs. The left is a `&L` or a borrowed form,
    /// as in [`get_by_left`](Self::get_by_left).
    ///
    /// Time: O(log n) with an ordered side, expected O(1) with two hashed sides.
    ///
    ///     seats.remove_by_left(&'a'); // Some(('a', 3))
    pub fn remove_by_left<Q: Query<L>>(&mut self, left: Q) -> Option<(L, R)>
    where
        I: Lookup<L, Q>,
        ensures answer { IsRemovalByLeft Q.same (holding self.old) left result
            (holding self.new) }
        ensures position { I.appends → MatchOption result
            ((holding self.new).pairs ≡ (holding self.old).pairs)
            (λ pair. IsTakenOut (holding self.old).pairs pair (holding self.new).pairs) }
    {
        self.remove_by_left_metered(left, &mut Count::new())
    }

    /// Removes the pair of a right and returns it, or returns `None` if the map does not contain the right.
    ///
    /// The capacity stays, and so does the insertion order of the other pairs. The right is a `&R` or a borrowed form,
    /// as in [`get_by_right`](Self::get_by_right).
    ///
    /// Time: O(log n) with an ordered side, expected O(1) with two hashed sides.
    ///
    ///     seats.remove_by_right(&4); // None
    pub fn remove_by_right<Q: Query<R>>(&mut self, right: Q) -> Option<(L, R)>
    where
        J: Lookup<R, Q>,
        ensures answer { IsRemovalByRight Q.same (holding self.old) right result
            (holding self.new) }
        ensures position { I.appends → MatchOption result
            ((holding self.new).pairs ≡ (holding self.old).pairs)
            (λ pair. IsTakenOut (holding self.old).pairs pair (holding self.new).pairs) }
    {
        self.remove_by_right_metered(right, &mut Count::new())
    }

    /// Removes all pairs and keeps the capacity.
    ///
    /// Time: O(capacity).
    ///
    ///     seats.clear();
    ///     (seats.len(), seats.capacity()); // (0, 4)
    pub fn clear(&mut self)
    where
        L: Drop,
        R: Drop,
        ensures pairs { (holding self.new).pairs ≡ [] }
        ensures room { (holding self.new).room ≡ (holding self.old).room }
    {
        self.table.clear();
    }

    /// Is [`remove_by_left`](Self::remove_by_left) with a meter.
    pub fn remove_by_left_metered<Q: Query<L>, M: Meter>(
        &mut self,
        left: Q,
        meter: &mut M,
    ) -> Option<(L, R)>
    where
        I: Lookup<L, Q>,
        ensures answer { IsRemovalByLeft Q.same (holding self.old) left result (holding self.new) }
        ensures position { I.appends → MatchOption result
            ((holding self.new).pairs ≡ (holding self.old).pairs)
            (λ pair. IsTakenOut (holding self.old).pairs pair (holding self.new).pairs) }
        ensures comparisons { let n = length (holding self.old).pairs in
            M.comparisons meter.new ≤ M.comparisons meter.old + I.effort n + J.effort n }
        ensures touches { let n = length (holding self.old).pairs in
            M.touches meter.new ≤ M.touches meter.old + 64 * (I.effort n + 1)
            + 64 * (J.effort n + 1) }
    {
        self.table.remove_by_left(left, meter)
    }

    /// Is [`remove_by_right`](Self::remove_by_right) with a meter.
    pub fn remove_by_right_metered<Q: Query<R>, M: Meter>(
        &mut self,
        right: Q,
        meter: &mut M,
    ) -> Option<(L, R)>
    where
        J: Lookup<R, Q>,
        ensures answer { IsRemovalByRight Q.same (holding self.old) right result
            (holding self.new) }
        ensures position { I.appends → MatchOption result
            ((holding self.new).pairs ≡ (holding self.old).pairs)
            (λ pair. IsTakenOut (holding self.old).pairs pair (holding self.new).pairs) }
        ensures comparisons { let n = length (holding self.old).pairs in
            M.comparisons meter.new ≤ M.comparisons meter.old + I.effort n + J.effort n }
        ensures touches { let n = length (holding self.old).pairs in
            M.touches meter.new ≤ M.touches meter.old + 64 * (I.effort n + 1)
            + 64 * (J.effort n + 1) }
    {
        self.table.remove_by_right(right, meter)
    }
}
