//! Pairs by their rank on an ordered side. The rank of a pair is the number of values of that side that are below its
//! own.
ghost use Rattle.std.specs.Prelude.{◌≡◌, ◌+◌, ◌*◌, ◌≤◌, All, length, slice_get, option_map};
ghost use Rattle.bimap_base.specs.Digits.{most_height};
ghost use Rattle.bimap_base.specs.PairsAt.{pairs_at};
ghost use Rattle.bimap_base.specs.Slots.{IsLive};

use crate::table::Table;
use bimap_base::{Meter, Pairs};
use bimap_index::Index;
use bimap_tree::Ordered;

// Returns the place at this rank, or `None` if the rank is not below the length.
fn place_at<M: Meter>(index: &Ordered, rank: usize, meter: &mut M) -> Option<usize>
    ensures place { result ≡ slice_get index.now.places rank }
    ensures comparisons { M.comparisons meter.new ≡ M.comparisons meter.old }
    ensures touches { M.touches meter.new ≤ M.touches meter.old
        + 2 * most_height (length index.now.places) }
{
    if rank < index.len() {
        Some(index.place_at(rank, meter))
    } else {
        None
    }
}

/// Returns the pair at this rank among the places that the index lists, or `None` if the rank is not below the length.
pub fn pair_at_rank<'a, L, R, M: Meter>(
    pairs: &'a Pairs<L, R>,
    index: &Ordered,
    rank: usize,
    meter: &mut M,
) -> Option<(&'a L, &'a R)>
    requires live { All (IsLive pairs.now) index.now.places }
    ensures pair { option_map (λ p. (p.0.now, p.1.now)) result
        ≡ slice_get (pairs_at pairs.now index.now.places) rank }
    ensures comparisons { M.comparisons meter.new ≡ M.comparisons meter.old }
    ensures touches { M.touches meter.new ≤ M.touches meter.old
        + 2 * most_height (length index.now.places) }
{
    let place = place_at(index, rank, meter)?;
    Some(pairs.held(place))
}

impl<L: Ord, R: Eq, J: Index<R>> Table<L, R, Ordered, J> {
    ghost use Rattle.bimap_core.specs.Ranks.{IsTakenAtRank};

    /// Removes the pair at this rank of the lefts and returns it, or returns `None` if the rank is not below the
    /// length. Never allocates.
    pub fn take_at_left_rank<M: Meter>(&mut self, rank: usize, meter: &mut M) -> Option<(L, R)>
        ensures taken { IsTakenAtRank self.old.pairs self.old.left.places rank result self.new.pairs
            self.new.left.places }
        ensures comparisons { M.comparisons meter.new ≤ M.comparisons meter.old
            + most_height (length self.old.left.places)
            + J.effort (length (J.places self.old.right)) }
        ensures touches { M.touches meter.new ≤ M.touches meter.old
            + 66 * (most_height (length self.old.left.places) + 1)
            + 64 * (J.effort (length (J.places self.old.right)) + 1) }
    {
        let taken = place_at(&self.left, rank, meter)?;
        Some(self.take(taken, meter))
    }
}

impl<L: Eq, R: Ord, I: Index<L>> Table<L, R, I, Ordered> {
    ghost use Rattle.bimap_core.specs.Ranks.{IsTakenAtRank};

    /// Removes the pair at this rank of the rights and returns it, or returns `None` if the rank is not below the
    /// length. Never allocates.
    pub fn take_at_right_rank<M: Meter>(&mut self, rank: usize, meter: &mut M) -> Option<(L, R)>
        ensures taken { IsTakenAtRank self.old.pairs self.old.right.places rank result
            self.new.pairs self.new.right.places }
        ensures comparisons { M.comparisons meter.new ≤ M.comparisons meter.old
            + I.effort (length (I.places self.old.left))
            + most_height (length self.old.right.places) }
        ensures touches { M.touches meter.new ≤ M.touches meter.old
            + 64 * (I.effort (length (I.places self.old.left)) + 1)
            + 66 * (most_height (length self.old.right.places) + 1) }
    {
        let taken = place_at(&self.right, rank, meter)?;
        Some(self.take(taken, meter))
    }
}
