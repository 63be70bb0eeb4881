//! The ends of an ordered side, and the pairs by their rank on it. No capacity changes.
ghost use Rattle.std.specs.Prelude.{◌≡◌, suc, ◌+◌, ◌-◌, ◌*◌, ◌≤◌, ◌++◌, length, take, drop, slice_get, option_map, count_by, IfSome};
ghost use Rattle.std.specs.Ordering.{is_lt};
ghost use Rattle.std.specs.Map.Iter.{TakesFirst, TakesLast, deref_pair};
ghost use Rattle.bimap_base.specs.Digits.{most_height};
ghost use Rattle.bimap_any.specs.Exchange.{IsWithoutPair};

use crate::map::BijectiveMap;
use bimap_base::{ByOrder, Count, LeftSide, Meter, OrderQuery, RightSide};
use bimap_core::pair_at_rank;
use bimap_index::Index;
use bimap_tree::Ordered;

impl<L: Ord, R: Eq, J: Index<R>> BijectiveMap<L, R, Ordered, J> {
    ghost use Rattle.bimap_kinds.specs.Held.{holding};

    /// Returns the pair with the least left, or `None` if the map is empty.
    ///
    /// Time: O(log n), without comparing values.
    ///
    ///     seats.first_by_left(); // Some((&'a', &3))
    pub fn first_by_left(&self) -> Option<(&L, &R)>
        ensures { option_map deref_pair result ≡ slice_get (holding self.now).pairs 0 }
    {
        self.first_by_left_metered(&mut Count::new())
    }

    /// Returns the pair with the greatest left, or `None` if the map is empty.
    ///
    /// Time: O(log n), without comparing values.
    ///
    ///     seats.last_by_left(); // Some((&'c', &2))
    pub fn last_by_left(&self) -> Option<(&L, &R)>
        ensures { option_map deref_pair result
            ≡ slice_get (holding self.now).pairs (length (holding self.now).pairs - 1) }
    {
        self.last_by_left_metered(&mut Count::new())
    }

    /// Returns the pair with exactly `rank` lefts below its own, or `None` if `rank` is the length or more.
    ///
    /// Time: O(log n), without comparing values.
    ///
    ///     seats.pair_at_left_rank(1); // Some((&'b', &1))
    pub fn pair_at_left_rank(&self, rank: usize) -> Option<(&L, &R)>
        ensures { option_map deref_pair result ≡ slice_get (holding self.now).pairs rank }
    {
        self.pair_at_left_rank_metered(rank, &mut Count::new())
    }

    /// Returns how many lefts are below this one.
    ///
    /// The map need not contain it. The left is a `&L` or a borrowed form, as in [`get_by_left`](Self::get_by_left).
    ///
    /// Time: O(log n).
    ///
    ///     seats.left_rank(&'c'); // 2
    pub fn left_rank<Q: OrderQuery<L>>(&self, left: Q) -> usize
        ensures { result ≡ count_by (λ p. is_lt (Q.order p.0 left)) (holding self.now).pairs }
    {
        self.left_rank_metered(left, &mut Count::new())
    }

    /// Removes the pair with the least left and returns it, or returns `None` if the map is empty.
    ///
    /// The capacity stays.
    ///
    /// Time: O(log n), expected if the right is hashed.
    ///
    ///     seats.pop_first_by_left(); // Some(('a', 3))
    pub fn pop_first_by_left(&mut self) -> Option<(L, R)>
        ensures taken { TakesFirst (λ p. p) (holding self.old).pairs result
            (holding self.new).pairs }
        ensures room { (holding self.new).room ≡ (holding self.old).room }
    {
        self.pop_first_by_left_metered(&mut Count::new())
    }

    /// Removes the pair with the greatest left and returns it, or returns `None` if the map is empty.
    ///
    /// The capacity stays.
    ///
    /// Time: O(log n), expected if the right is hashed.
    ///
    ///     seats.pop_last_by_left(); // Some(('c', 2))
    pub fn pop_last_by_left(&mut self) -> Option<(L, R)>
        ensures taken { TakesLast (λ p. p) (holding self.old).pairs result
            (holding self.new).pairs }
        ensures room { (holding self.new).room ≡ (holding self.old).room }
    {
        self.pop_last_by_left_metered(&mut Count::new())
    }

    /// Is [`first_by_left`](Self::first_by_left) with a meter.
    pub fn first_by_left_metered<M: Meter>(&self, meter: &mut M) -> Option<(&L, &R)>
        ensures pair { option_map deref_pair result ≡ slice_get (holding self.now).pairs 0 }
        ensures comparisons { M.comparisons meter.new ≡ M.comparisons meter.old }
        ensures touches { M.touches meter.new ≤ M.touches meter.old
            + 2 * most_height (length (holding self.now).pairs) }
    {
        self.pair_at_left_rank_metered(0, meter)
    }

    /// Is [`last_by_left`](Self::last_by_left) with a meter.
    pub fn last_by_left_metered<M: Meter>(&self, meter: &mut M) -> Option<(&L, &R)>
        ensures pair { option_map deref_pair result
            ≡ slice_get (holding self.now).pairs (length (holding self.now).pairs - 1) }
        ensures comparisons { M.comparisons meter.new ≡ M.comparisons meter.old }
        ensures touches { M.touches meter.new ≤ M.touches meter.old
            + 2 * most_height (length (holding self.now).pairs) }
    {
        self.pair_at_left_rank_metered(self.len().saturating_sub(1), meter)
    }

    /// Is [`pair_at_left_rank`](Self::pair_at_left_rank) with a meter.
    pub fn pair_at_left_rank_metered<M: Meter>(
        &self,
        rank: usize,
        meter: &mut M,
    ) -> Option<(&L, &R)>
        ensures pair { option_map deref_pair result ≡ slice_get (holding self.now).pairs rank }
        ensures comparisons { M.comparisons meter.new ≡ M.comparisons meter.old }
        ensures touches { M.touches meter.new ≤ M.touches meter.old
            + 2 * most_height (length (holding self.now).pairs) }
    {
        pair_at_rank(&self.table.pairs, &self.table.left, rank, meter)
    }

    /// Is [`left_rank`](Self::left_rank) with a meter.
    pub fn left_rank_metered<Q: OrderQuery<L>, M: Meter>(&self, left: Q, meter: &mut M) -> usize
        ensures rank { result ≡ count_by (λ p. is_lt (Q.order p.0 left))
            (holding self.now).pairs }
        ensures comparisons { M.comparisons meter.new ≤ M.comparisons meter.old
            + most_height (length (holding self.now).pairs) }
        ensures touches { M.touches meter.new ≤ M.touches meter.old
            + 2 * most_height (length (holding self.now).pairs) }
    {
        let lefts = ByOrder::new(LeftSide::new(&self.table.pairs));
        self.table.left.rank_of(&lefts, left, meter)
    }

    /// Is [`pop_first_by_left`](Self::pop_first_by_left) with a meter.
    pub fn pop_first_by_left_metered<M: Meter>(&mut self, meter: &mut M) -> Option<(L, R)>
        ensures taken { TakesFirst (λ p. p) (holding self.old).pairs result
            (holding self.new).pairs }
        ensures room { (holding self.new).room ≡ (holding self.old).room }
        ensures comparisons { let n = length (holding self.old).pairs in
            M.comparisons meter.new ≤ M.comparisons meter.old + most_height n + J.effort n }
        ensures touches { let n = length (holding self.old).pairs in
            M.touches meter.new ≤ M.touches meter.old + 66 * (most_height n + 1)
            + 64 * (J.effort n + 1) }
    {
        self.take_at_left_rank(0, meter)
    }

    /// Is [`pop_last_by_left`](Self::pop_last_by_left) with a meter.
    pub fn pop_last_by_left_metered<M: Meter>(&mut self, meter: &mut M) -> Option<(L, R)>
        ensures taken { TakesLast (λ p. p) (holding self.old).pairs result
            (holding self.new).pairs }
        ensures room { (holding self.new).room ≡ (holding self.old).room }
        ensures comparisons { let n = length (holding self.old).pairs in
            M.comparisons meter.new ≤ M.comparisons meter.old + most_height n + J.effort n }
        ensures touches { let n = length (holding self.old).pairs in
            M.touches meter.new ≤ M.touches meter.old + 66 * (most_height n + 1)
            + 64 * (J.effort n + 1) }
    {
        let last = self.len().saturating_sub(1);
        self.take_at_left_rank(last, meter)
    }

    // Removes the pair of a rank and returns it, or returns `None` if the rank is the length or more.
    #[tactic(auto, unfolding(crate::specs::HeldTable::held))]
    fn take_at_left_rank<M: Meter>(&mut self, rank: usize, meter: &mut M) -> Option<(L, R)>
        ensures pair { result ≡ slice_get (holding self.old).pairs rank }
        ensures rest { (holding self.new).pairs ≡ take rank (holding self.old).pairs
            ++ drop (suc rank) (holding self.old).pairs }
        ensures room { (holding self.new).room ≡ (holding self.old).room }
        ensures comparisons { let n = length (holding self.old).pairs in
            M.comparisons meter.new ≤ M.comparisons meter.old + most_height n + J.effort n }
        ensures touches { let n = length (holding self.old).pairs in
            M.touches meter.new ≤ M.touches meter.old + 66 * (most_height n + 1)
            + 64 * (J.effort n + 1) }
    {
        self.table.take_at_left_rank(rank, meter)
    }
}

#[tactic(auto, unfolding(crate::specs::HeldTable::held, crate::specs::HeldTable::held_by_right))]
impl<L: Eq, R: Ord, I: Index<L>> BijectiveMap<L, R, I, Ordered> {
    ghost use Rattle.bimap_kinds.specs.Held.{holding, by_right};
    ghost use Rattle.bimap_kinds.specs.Sorted.{IsByRight};

    /// Returns the pair with the least right, or `None` if the map is empty.
    ///
    /// Time: O(log n), without comparing values.
    ///
    ///     seats.first_by_right(); // Some((&'b', &1))
    pub fn first_by_right(&self) -> Option<(&L, &R)>
        ensures pair { option_map deref_pair result ≡ slice_get (by_right self.now) 0 }
        ensures sorted { IsByRight R.cmp (holding self.now).pairs (by_right self.now) }
    {
        self.first_by_right_metered(&mut Count::new())
    }

    /// Returns the pair with the greatest right, or `None` if the map is empty.
    ///
    /// Time: O(log n), without comparing values.
    ///
    ///     seats.last_by_right(); // Some((&'a', &3))
    pub fn last_by_right(&self) -> Option<(&L, &R)>
        ensures pair { option_map deref_pair result
            ≡ slice_get (by_right self.now) (length (by_right self.now) - 1) }
        ensures sorted { IsByRight R.cmp (holding self.now).pairs (by_right self.now) }
    {
        self.last_by_right_metered(&mut Count::new())
    }

    /// Returns the pair with exactly `rank` rights below its own, or `None` if `rank` is the length or more.
    ///
    /// Time: O(log n), without comparing values.
    ///
    ///     seats.pair_at_right_rank(1); // Some((&'c', &2))
    pub fn pair_at_right_rank(&self, rank: usize) -> Option<(&L, &R)>
        ensures pair { option_map deref_pair result ≡ slice_get (by_right self.now) rank }
        ensures sorted { IsByRight R.cmp (holding self.now).pairs (by_right self.now) }
    {
        self.pair_at_right_rank_metered(rank, &mut Count::new())
    }

    /// Returns how many rights are below this one.
    ///
    /// The map need not contain it. The right is a `&R` or a borrowed form, as in [`get_by_right`](Self::get_by_right).
    ///
    /// Time: O(log n).
    ///
    ///     seats.right_rank(&3); // 2
    pub fn right_rank<Q: OrderQuery<R>>(&self, right: Q) -> usize
        ensures rank { result ≡ count_by (λ p. is_lt (Q.order p.1 right)) (by_right self.now) }
        ensures sorted { IsByRight R.cmp (holding self.now).pairs (by_right self.now) }
    {
        self.right_rank_metered(right, &mut Count::new())
    }

    /// Removes the pair with the least right and returns it, or returns `None` if the map is empty.
    ///
    /// The capacity stays.
    ///
    /// Time: O(log n), expected if the left is hashed.
    ///
    ///     seats.pop_first_by_right(); // Some(('b', 1))
    pub fn pop_first_by_right(&mut self) -> Option<(L, R)>
        ensures taken { TakesFirst (λ p. p) (by_right self.old) result (by_right self.new) }
        ensures sorted { IsByRight R.cmp (holding self.old).pairs (by_right self.old) }
        ensures removed { IfSome result (λ p. IsWithoutPair (holding self.old).pairs p
            (holding self.new).pairs) }
        ensures room { (holding self.new).room ≡ (holding self.old).room }
    {
        self.pop_first_by_right_metered(&mut Count::new())
    }

    /// Removes the pair with the greatest right and returns it, or returns `None` if the map is empty.
    ///
    /// The capacity stays.
    ///
    /// Time: O(log n), expected if the left is hashed.
    ///
    ///     seats.pop_last_by_right(); // Some(('a', 3))
    pub fn pop_last_by_right(&mut self) -> Option<(L, R)>
        ensures taken { TakesLast (λ p. p) (by_right self.old) result (by_right self.new) }
        ensures sorted { IsByRight R.cmp (holding self.old).pairs (by_right self.old) }
        ensures removed { IfSome result (λ p. IsWithoutPair (holding self.old).pairs p
            (holding self.new).pairs) }
        ensures room { (holding self.new).room ≡ (holding self.old).room }
    {
        self.pop_last_by_right_metered(&mut Count::new())
    }

    /// Is [`first_by_right`](Self::first_by_right) with a meter.
    pub fn first_by_right_metered<M: Meter>(&self, meter: &mut M) -> Option<(&L, &R)>
        ensures pair { option_map deref_pair result ≡ slice_get (by_right self.now) 0 }
        ensures sorted { IsByRight R.cmp (holding self.now).pairs (by_right self.now) }
        ensures comparisons { M.comparisons meter.new ≡ M.comparisons meter.old }
        ensures touches { M.touches meter.new ≤ M.touches meter.old
            + 2 * most_height (length (holding self.now).pairs) }
    {
        self.pair_at_right_rank_metered(0, meter)
    }

    /// Is [`last_by_right`](Self::last_by_right) with a meter.
    pub fn last_by_right_metered<M: Meter>(&self, meter: &mut M) -> Option<(&L, &R)>
        ensures pair { option_map deref_pair result
            ≡ slice_get (by_right self.now) (length (by_right self.now) - 1) }
        ensures sorted { IsByRight R.cmp (holding self.now).pairs (by_right self.now) }
        ensures comparisons { M.comparisons meter.new ≡ M.comparisons meter.old }
        ensures touches { M.touches meter.new ≤ M.touches meter.old
            + 2 * most_height (length (holding self.now).pairs) }
    {
        self.pair_at_right_rank_metered(self.len().saturating_sub(1), meter)
    }

    /// Is [`pair_at_right_rank`](Self::pair_at_right_rank) with a meter.
    pub fn pair_at_right_rank_metered<M: Meter>(
        &self,
        rank: usize,
        meter: &mut M,
    ) -> Option<(&L, &R)>
        ensures pair { option_map deref_pair result ≡ slice_get (by_right self.now) rank }
        ensures sorted { IsByRight R.cmp (holding self.now).pairs (by_right self.now) }
        ensures comparisons { M.comparisons meter.new ≡ M.comparisons meter.old }
        ensures touches { M.touches meter.new ≤ M.touches meter.old
            + 2 * most_height (length (holding self.now).pairs) }
    {
        pair_at_rank(&self.table.pairs, &self.table.right, rank, meter)
    }

    /// Is [`right_rank`](Self::right_rank) with a meter.
    pub fn right_rank_metered<Q: OrderQuery<R>, M: Meter>(&self, right: Q, meter: &mut M) -> usize
        ensures rank { result ≡ count_by (λ p. is_lt (Q.order p.1 right)) (by_right self.now) }
        ensures sorted { IsByRight R.cmp (holding self.now).pairs (by_right self.now) }
        ensures comparisons { M.comparisons meter.new ≤ M.comparisons meter.old
            + most_height (length (holding self.now).pairs) }
        ensures touches { M.touches meter.new ≤ M.touches meter.old
            + 2 * most_height (length (holding self.now).pairs) }
    {
        let rights = ByOrder::new(RightSide::new(&self.table.pairs));
        self.table.right.rank_of(&rights, right, meter)
    }

    /// Is [`pop_first_by_right`](Self::pop_first_by_right) with a meter.
    pub fn pop_first_by_right_metered<M: Meter>(&mut self, meter: &mut M) -> Option<(L, R)>
        ensures taken { TakesFirst (λ p. p) (by_right self.old) result (by_right self.new) }
        ensures sorted { IsByRight R.cmp (holding self.old).pairs (by_right self.old) }
        ensures removed { IfSome result (λ p. IsWithoutPair (holding self.old).pairs p
            (holding self.new).pairs) }
        ensures room { (holding self.new).room ≡ (holding self.old).room }
        ensures comparisons { let n = length (holding self.old).pairs in
            M.comparisons meter.new ≤ M.comparisons meter.old + I.effort n + most_height n }
        ensures touches { let n = length (holding self.old).pairs in
            M.touches meter.new ≤ M.touches meter.old + 64 * (I.effort n + 1)
            + 66 * (most_height n + 1) }
    {
        self.take_at_right_rank(0, meter)
    }

    /// Is [`pop_last_by_right`](Self::pop_last_by_right) with a meter.
    pub fn pop_last_by_right_metered<M: Meter>(&mut self, meter: &mut M) -> Option<(L, R)>
        ensures taken { TakesLast (λ p. p) (by_right self.old) result (by_right self.new) }
        ensures sorted { IsByRight R.cmp (holding self.old).pairs (by_right self.old) }
        ensures removed { IfSome result (λ p. IsWithoutPair (holding self.old).pairs p
            (holding self.new).pairs) }
        ensures room { (holding self.new).room ≡ (holding self.old).room }
        ensures comparisons { let n = length (holding self.old).pairs in
            M.comparisons meter.new ≤ M.comparisons meter.old + I.effort n + most_height n }
        ensures touches { let n = length (holding self.old).pairs in
            M.touches meter.new ≤ M.touches meter.old + 64 * (I.effort n + 1)
            + 66 * (most_height n + 1) }
    {
        let last = self.len().saturating_sub(1);
        self.take_at_right_rank(last, meter)
    }

    // Removes the pair of a rank and returns it, or returns `None` if the rank is the length or more.
    fn take_at_right_rank<M: Meter>(&mut self, rank: usize, meter: &mut M) -> Option<(L, R)>
        ensures pair { result ≡ slice_get (by_right self.old) rank }
        ensures rest { (by_right self.new) ≡ take rank (by_right self.old)
            ++ drop (suc rank) (by_right self.old) }
        ensures sorted { IsByRight R.cmp (holding self.old).pairs (by_right self.old) }
        ensures removed { IfSome result (λ p. IsWithoutPair (holding self.old).pairs p
            (holding self.new).pairs) }
        ensures room { (holding self.new).room ≡ (holding self.old).room }
        ensures comparisons { let n = length (holding self.old).pairs in
            M.comparisons meter.new ≤ M.comparisons meter.old + I.effort n + most_height n }
        ensures touches { let n = length (holding self.old).pairs in
            M.touches meter.new ≤ M.touches meter.old + 64 * (I.effort n + 1)
            + 66 * (most_height n + 1) }
    {
        self.table.take_at_right_rank(rank, meter)
    }
}
