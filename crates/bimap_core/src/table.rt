//! The store and its two indexes.
ghost use Rattle.std.specs.Prelude.{◌≡◌, ◌+◌, ◌*◌, ◌≤◌, [], None, length, IfSome, IfNone};
ghost use Rattle.std.proofs.Props.{props};
ghost use Rattle.bimap_base.specs.Holding.{IsFoundByLeft, IsFoundByRight};
ghost use Rattle.bimap_base.specs.Places.{pairs_in, IsFoundAt};
ghost use Rattle.bimap_base.specs.Sets.{IsApart};
ghost use Rattle.bimap_base.specs.Slots.{left_at, right_at, IsLive};

use bimap_base::{LeftSide, Meter, Pairs, Query, RightSide};
use bimap_index::{Index, Lookup};
use std::alloc::Global;

/// Pairs, each of which can be found by its left and by its right. No two pairs share a value.
#[derive(Drop)]
pub struct Table<L: Eq, R: Eq, I: Index<L>, J: Index<R>> {
    pub pairs: Pairs<L, R>,
    pub left: I,
    pub right: J,
    // Whether the left decided the last insertion. It did if the policy kept the pair with an equal left, or if one
    // pair contained both values. The left then probably decides the next insertion too, which searches it first.
    pub(crate) is_left_first: bool,
    ghost left_listing: { ∥ I.is_listing left (left_at pairs) ∥₁ },
    ghost right_listing: { ∥ J.is_listing right (right_at pairs) ∥₁ },
    ghost left_cells: { length pairs ≤ I.cells left },
    ghost right_cells: { length pairs ≤ J.cells right },
    /// No two of the contained pairs share a value.
    pub ghost apart: { IsApart L.eq R.eq (pairs_in pairs) } by { Prim.hlevel props },
    /// There is a place for each contained pair.
    pub ghost fits: { length (pairs_in pairs) ≤ length pairs },
}

impl<L: Eq, R: Eq, I: Index<L>, J: Index<R>> Table<L, R, I, J> {
    ghost use Rattle.bimap_core.specs.Store.{holding_of};

    /// Returns a table with these two indexes, which list nothing yet. Never allocates.
    pub fn new(alloc: Global, left: I, right: J) -> Self
        requires left { I.is_listing left (λ _. None) }
        requires right { J.is_listing right (λ _. None) }
        ensures pairs { result.pairs ≡ [] }
        ensures left { result.left ≡ left }
        ensures right { result.right ≡ right }
    {
        Table {
            pairs: Pairs::new(alloc),
            left,
            right,
            is_left_first: false,
        }
    }

    /// Returns the number of pairs.
    pub fn len(&self) -> usize
        ensures { result ≡ length (holding_of self.now.pairs).pairs }
    {
        self.pairs.len()
    }

    /// Returns the number of places for pairs.
    pub fn room(&self) -> usize
        ensures { result ≡ (holding_of self.now.pairs).room }
    {
        self.pairs.places()
    }

    /// Returns the partner of a left, or `None` if the left is not contained.
    pub fn get_by_left<Q: Query<L>, M: Meter>(&self, left: Q, meter: &mut M) -> Option<&R>
    where
        I: Lookup<L, Q>,
        ensures answer { IsFoundByLeft Q.same (holding_of self.now.pairs) left result }
        ensures comparisons { M.comparisons meter.new ≤ M.comparisons meter.old
            + I.effort (length (I.places self.now.left)) }
        ensures touches { M.touches meter.new ≤ M.touches meter.old
            + I.effort (length (I.places self.now.left)) }
    {
        let place = self.left.find_by(LeftSide::new(&self.pairs), left, meter)?;
        let (_, right) = self.pairs.held(place);
        Some(right)
    }

    /// Returns the partner of a right, or `None` if the right is not contained.
    pub fn get_by_right<Q: Query<R>, M: Meter>(&self, right: Q, meter: &mut M) -> Option<&L>
    where
        J: Lookup<R, Q>,
        ensures answer { IsFoundByRight Q.same (holding_of self.now.pairs) right result }
        ensures comparisons { M.comparisons meter.new ≤ M.comparisons meter.old
            + J.effort (length (J.places self.now.right)) }
        ensures touches { M.touches meter.new ≤ M.touches meter.old
            + J.effort (length (J.places self.now.right)) }
    {
        let place = self
            .right
            .find_by(RightSide::new(&self.pairs), right, meter)?;
        let (left, _) = self.pairs.held(place);
        Some(left)
    }

    // Returns a search of each side. It alternates the steps of the two searches until one is at its end. The processor
    // then waits for the memory of both at the same time. If the left will probably decide, neither search has begun.
    pub(crate) fn descend<M: Meter>(
        &self,
        left: &L,
        right: &R,
        left_spot: &mut I::Spot,
        right_spot: &mut J::Spot,
        meter: &mut M,
    ) -> (I::Search, J::Search)
        ensures left { I.under_way self.now.left
            (left_at self.now.pairs) left.now result.0 left_spot.new }
        ensures right { J.under_way self.now.right
            (right_at self.now.pairs) right.now result.1 right_spot.new }
        ensures comparisons { M.comparisons meter.new + I.ahead self.now.left result.0
            + J.ahead self.now.right result.1 ≤ M.comparisons meter.old
            + I.effort (length (I.places self.now.left))
            + J.effort (length (J.places self.now.right)) }
        ensures touches { M.touches meter.new + I.ahead self.now.left result.0
            + J.ahead self.now.right result.1 ≤ M.touches meter.old
            + I.effort (length (I.places self.now.left))
            + J.effort (length (J.places self.now.right)) }
    {
        let mut to_left = self.left.start();
        let mut to_right = self.right.start();
        if self.is_left_first {
            return (to_left, to_right);
        }
        while self.left.step(
            LeftSide::new(&self.pairs),
            left,
            &mut to_left,
            left_spot,
            meter,
        ) {
            if !self.right.step(
                RightSide::new(&self.pairs),
                right,
                &mut to_right,
                right_spot,
                meter,
            ) {
                break;
            }
        }
        (to_left, to_right)
    }

    // Takes the search to its end and returns the place with an equal left, if there is one. Writes a spot for the
    // left.
    pub(crate) fn finish_left<M: Meter>(
        &self,
        search: I::Search,
        left: &L,
        spot: &mut I::Spot,
        meter: &mut M,
    ) -> Option<usize>
        requires under_way { I.under_way self.now.left
            (left_at self.now.pairs) left.now search spot.old }
        ensures found { IsFoundAt (λ p. p.0) L.eq self.now.pairs left.now result }
        ensures leads { IfNone result (I.leads self.now.left
            (left_at self.now.pairs) left.now spot.new) }
        ensures is_for { I.is_for self.now.left left.now spot.new }
        ensures comparisons { M.comparisons meter.new ≤ M.comparisons meter.old
            + I.ahead self.now.left search }
        ensures touches { M.touches meter.new ≤ M.touches meter.old + I.ahead self.now.left search }
    {
        self.left
            .finish(LeftSide::new(&self.pairs), left, search, spot, meter)
    }

    // Takes the search to its end and returns the place with an equal right, if there is one. Writes a spot for the
    // right. `by_left` is the place with an equal left, if there is one. If the right at that place is equal, there is
    // no search, and no spot is written.
    pub(crate) fn finish_right<M: Meter>(
        &self,
        by_left: Option<usize>,
        search: J::Search,
        right: &R,
        spot: &mut J::Spot,
        meter: &mut M,
    ) -> Option<usize>
        requires live { IfSome by_left (IsLive self.now.pairs) }
        requires under_way { J.under_way self.now.right
            (right_at self.now.pairs) right.now search spot.old }
        ensures found { IsFoundAt (λ p. p.1) R.eq self.now.pairs right.now result }
        ensures leads { IfNone result (J.leads self.now.right
            (right_at self.now.pairs) right.now spot.new) }
        ensures is_for { (result ≡ by_left → ⊥) → J.is_for self.now.right right.now spot.new }
        ensures comparisons { M.comparisons meter.new ≤ M.comparisons meter.old
            + J.ahead self.now.right search + J.effort (length (J.places self.now.right)) }
        ensures unasked { IfNone by_left (M.comparisons meter.new ≤ M.comparisons meter.old
            + J.ahead self.now.right search) }
        ensures touches { M.touches meter.new ≤ M.touches meter.old
            + J.ahead self.now.right search }
    {
        if let Some(place) = by_left {
            if self
                .right
                .is_known(RightSide::new(&self.pairs), place, right, meter)
            {
                return Some(place);
            }
        }
        self.right
            .finish(RightSide::new(&self.pairs), right, search, spot, meter)
    }
}
