//! Removals. They never allocate.
ghost use Rattle.std.specs.Prelude.{◌≡◌, ◌+◌, ◌*◌, ◌≤◌, length, MatchOption};
ghost use Rattle.bimap_base.specs.Holding.{IsRemovalByLeft, IsRemovalByRight};
ghost use Rattle.bimap_base.specs.PairsAt.{pairs_at};
ghost use Rattle.bimap_base.specs.Positions.{IsTakenOut};

use crate::table::Table;
use bimap_base::{LeftSide, Meter, Query, RightSide};
use bimap_index::{Index, Lookup};

impl<L: Eq, R: Eq, I: Index<L>, J: Index<R>> Table<L, R, I, J> {
    ghost use Rattle.bimap_core.specs.Store.{holding_of};

    /// Removes the pair with this left and returns it, or returns `None` if the left is not contained. The room stays.
    pub fn remove_by_left<Q: Query<L>, M: Meter>(
        &mut self,
        left: Q,
        meter: &mut M,
    ) -> Option<(L, R)>
    where
        I: Lookup<L, Q>,
        ensures answer { IsRemovalByLeft Q.same (holding_of self.old.pairs) left result
            (holding_of self.new.pairs) }
        ensures position { I.appends → let was = pairs_at self.old.pairs (I.places self.old.left) in
            let now = pairs_at self.new.pairs (I.places self.new.left) in
            MatchOption result (now ≡ was) (λ pair. IsTakenOut was pair now) }
        ensures comparisons { M.comparisons meter.new ≤ M.comparisons meter.old
            + I.effort (length (I.places self.old.left))
            + J.effort (length (J.places self.old.right)) }
        ensures touches { M.touches meter.new ≤ M.touches meter.old
            + 64 * (I.effort (length (I.places self.old.left)) + 1)
            + 64 * (J.effort (length (J.places self.old.right)) + 1) }
    {
        let place = self
            .left
            .unlink_by(LeftSide::new(&self.pairs), left, meter)?;
        self.right.unlink(RightSide::new(&self.pairs), place, meter);
        Some(self.pairs.take(place))
    }

    /// Removes the pair with this right and returns it, or returns `None` if the right is not contained. The room
    /// stays.
    pub fn remove_by_right<Q: Query<R>, M: Meter>(
        &mut self,
        right: Q,
        meter: &mut M,
    ) -> Option<(L, R)>
    where
        J: Lookup<R, Q>,
        ensures answer { IsRemovalByRight Q.same (holding_of self.old.pairs) right result
            (holding_of self.new.pairs) }
        ensures position { I.appends → let was = pairs_at self.old.pairs (I.places self.old.left) in
            let now = pairs_at self.new.pairs (I.places self.new.left) in
            MatchOption result (now ≡ was) (λ pair. IsTakenOut was pair now) }
        ensures comparisons { M.comparisons meter.new ≤ M.comparisons meter.old
            + I.effort (length (I.places self.old.left))
            + J.effort (length (J.places self.old.right)) }
        ensures touches { M.touches meter.new ≤ M.touches meter.old
            + 64 * (I.effort (length (I.places self.old.left)) + 1)
            + 64 * (J.effort (length (J.places self.old.right)) + 1) }
    {
        let place = self
            .right
            .unlink_by(RightSide::new(&self.pairs), right, meter)?;
        self.left.unlink(LeftSide::new(&self.pairs), place, meter);
        Some(self.pairs.take(place))
    }
}
