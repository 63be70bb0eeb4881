//! Iterators, by the index of a side. They know no rank, and no hash.
ghost use Rattle.std.specs.Prelude.{◌≡◌};
ghost use Rattle.std.specs.BTreeMap.Range.{IsLeBy, IsLtBy, range_contains};
ghost use Rattle.std.specs.List.{filter};
ghost use Rattle.std.specs.Map.{keys_of, values_of};
ghost use Rattle.std.specs.Map.Iter.{ShowsInOrder, ShowsInReverse, deref, deref_pair};
ghost use Rattle.bimap_kinds.specs.Held.{holding, by_right};
ghost use Rattle.bimap_kinds.specs.Sorted.{IsByRight};
ghost use Rattle.bimap_tree.specs.Ranges.{is_between};

use crate::map::BijectiveMap;
use crate::walked_index::WalkedIndex;
use bimap_base::{ByOrder, Count, LeftSide, OrderQuery, RightSide};
use bimap_index::{HashIndex, Index};
use bimap_tree::Ordered;
use bimap_walk::by_rank::{self, LeftRange, RightRange};
use bimap_walk::{Iter, LeftProjection, LeftValues, RightProjection, RightValues, Values};
use std::hash::{BuildHasher, Hash};
use std::ops::{Bound, RangeBounds};

impl<L: Eq, R: Eq, I: WalkedIndex<L>, J: Index<R>> BijectiveMap<L, R, I, J> {
    /// Returns an iterator over the pairs, each as `(&L, &R)`.
    ///
    /// With an ordered left it goes in ascending order of the lefts. A `BiInsertionOrderMap` iterates in insertion order.
    /// Both also go from the back. Any other hashed left is iterated in the order of the places, which no contract
    /// promises.
    ///
    /// Time: O(1) for the call, O(log n) at most for a step with an ordered left, and O(1) for a step of a
    /// `BiInsertionOrderMap`. Otherwise O(capacity) for all steps.
    ///
    ///     seats.iter().len(); // 3
    ///     seats.iter().next(); // Some((&'a', &3))
    ///     seats.iter().next_back(); // Some((&'c', &2))
    #[tactic(auto, unfolding(crate::specs::HeldTable::held))]
    pub fn iter(&self) -> Iter<'_, L, R, I::Way>
        ensures rest { result ≡ (holding self.now).pairs }
        ensures runs { ShowsInOrder (deref_pair {K = L} {X = R}) }
        ensures runs_back { ShowsInReverse (deref_pair {K = L} {X = R}) }
    {
        let table = &self.table;
        table.left.walk(LeftSide::new(&table.pairs), &table.pairs)
    }

    /// Returns an iterator over the lefts, in the order of [`iter`](Self::iter).
    ///
    /// Time: That of [`iter`](Self::iter) and its steps.
    ///
    ///     seats.left_values().len(); // 3
    ///     seats.left_values().next(); // Some(&'a')
    pub fn left_values(&self) -> LeftValues<'_, L, R, I::Way>
        ensures rest { result ≡ keys_of (holding self.now).pairs }
        ensures runs { ShowsInOrder (deref {X = L}) }
        ensures runs_back { ShowsInReverse (deref {X = L}) }
    {
        Values::new(self.iter())
    }
}

impl<L: Eq, R: Eq + Hash, I: WalkedIndex<L>, RS: BuildHasher> BijectiveMap<L, R, I, HashIndex<RS>> {
    /// Returns an iterator over the rights, in the order of [`iter`](Self::iter).
    ///
    /// Time: That of [`iter`](Self::iter) and its steps.
    ///
    ///     seats.right_values().len(); // 3
    ///     seats.right_values().next(); // Some(&3)
    pub fn right_values(&self) -> RightValues<'_, L, R, I::Way>
        ensures rest { result ≡ values_of (holding self.now).pairs }
        ensures runs { ShowsInOrder (deref {X = R}) }
        ensures runs_back { ShowsInReverse (deref {X = R}) }
    {
        let pairs = self.iter();
        Values::new(pairs)
    }
}

impl<L: Ord, R: Eq, J: Index<R>> BijectiveMap<L, R, Ordered, J> {
    /// Returns an iterator over the pairs whose left lies in a range, by ascending left and also from the back.
    ///
    /// `BTreeMap::range` panics at bounds that break the condition. Here the proof of the caller has to see that the
    /// condition is true. For an `a..=b` that was iterated to its end, nothing is promised about the pairs.
    ///
    /// Condition: The start is not above the end, and two excluded bounds are not equal.
    ///
    /// Time: O(log n) for the call, and O(log n) at most for a step.
    ///
    ///     seats.left_range('b'..).next(); // Some((&'b', &1))
    pub fn left_range<A: RangeBounds<L>>(&self, range: A) -> LeftRange<'_, L, R>
        requires forward { A.is_forward range (IsLeBy L.cmp) (IsLtBy L.cmp) }
        ensures rest { A.has_bounds range → result
            ≡ filter (λ p. range_contains L.cmp (A.start_bound range) (A.end_bound range) p.0)
            (holding self.now).pairs }
        ensures runs { ShowsInOrder (deref_pair {K = L} {X = R}) }
        ensures runs_back { ShowsInReverse (deref_pair {K = L} {X = R}) }
    {
        self.left_range_between(range.start_bound(), range.end_bound())
    }

    /// Returns an iterator over the pairs whose left lies between two bounds, by ascending left and also from the back.
    ///
    /// A bound has a `&L` or a borrowed form, as in [`get_by_left`](Self::get_by_left). If the bounds are reversed,
    /// there is no pair.
    ///
    /// Time: O(log n) for the call, and O(log n) at most for a step.
    ///
    ///     numbers.left_range_between(Bound::Included("m"), Bound::Excluded("n")).len(); // 2
    pub fn left_range_between<Q: OrderQuery<L>>(
        &self,
        start: Bound<Q>,
        end: Bound<Q>,
    ) -> LeftRange<'_, L, R>
        ensures rest { result ≡ filter (λ p. is_between Q.order start end p.0)
            (holding self.now).pairs }
        ensures runs { ShowsInOrder (deref_pair {K = L} {X = R}) }
        ensures runs_back { ShowsInReverse (deref_pair {K = L} {X = R}) }
    {
        let table = &self.table;
        let lefts = ByOrder::new(LeftSide::new(&table.pairs));
        by_rank::range(
            &table.pairs,
            &table.left,
            LeftProjection,
            &lefts,
            start,
            end,
            &mut Count::new(),
        )
    }
}

impl<L: Eq, R: Ord, I: Index<L>> BijectiveMap<L, R, I, Ordered> {
    /// Returns an iterator over the rights, in ascending order and also from the back.
    ///
    /// Time: O(1) for the call, and O(log n) at most for a step.
    ///
    ///     seats.right_values().next(); // Some(&1)
    #[tactic(auto, unfolding(crate::specs::HeldTable::held_by_right))]
    pub fn right_values(&self) -> by_rank::RightValues<'_, L, R>
        ensures rest { result ≡ values_of (by_right self.now) }
        ensures sorted { IsByRight R.cmp (holding self.now).pairs (by_right self.now) }
        ensures runs { ShowsInOrder (deref {X = R}) }
        ensures runs_back { ShowsInReverse (deref {X = R}) }
    {
        let table = &self.table;
        let rights = RightSide::new(&table.pairs);
        Values::new(table.right.walk(rights, &table.pairs))
    }

    /// Returns an iterator over the pairs whose right lies in a range, by ascending right and also from the back.
    ///
    /// What [`left_range`](Self::left_range) says of its condition holds here too.
    ///
    /// Condition: The start is not above the end, and two excluded bounds are not equal.
    ///
    /// Time: O(log n) for the call, and O(log n) at most for a step.
    ///
    ///     seats.right_range(2..).next(); // Some((&'c', &2))
    pub fn right_range<A: RangeBounds<R>>(&self, range: A) -> RightRange<'_, L, R>
        requires forward { A.is_forward range (IsLeBy R.cmp) (IsLtBy R.cmp) }
        ensures rest { A.has_bounds range → result
            ≡ filter (λ p. range_contains R.cmp (A.start_bound range) (A.end_bound range) p.1)
            (by_right self.now) }
        ensures sorted { IsByRight R.cmp (holding self.now).pairs (by_right self.now) }
        ensures runs { ShowsInOrder (deref_pair {K = L} {X = R}) }
        ensures runs_back { ShowsInReverse (deref_pair {K = L} {X = R}) }
    {
        self.right_range_between(range.start_bound(), range.end_bound())
    }

    /// Returns an iterator over the pairs whose right lies between two bounds, by ascending right and also from the
    /// back.
    ///
    /// A bound has a `&R` or a borrowed form, as in [`get_by_right`](Self::get_by_right). If the bounds are reversed,
    /// there is no pair.
    ///
    /// Time: O(log n) for the call, and O(log n) at most for a step.
    ///
    ///     seats.right_range_between(Bound::Excluded(&1), Bound::Unbounded).next(); // Some((&'c', &2))
    pub fn right_range_between<Q: OrderQuery<R>>(
        &self,
        start: Bound<Q>,
        end: Bound<Q>,
    ) -> RightRange<'_, L, R>
        ensures rest { result ≡ filter (λ p. is_between Q.order start end p.1)
            (by_right self.now) }
        ensures sorted { IsByRight R.cmp (holding self.now).pairs (by_right self.now) }
        ensures runs { ShowsInOrder (deref_pair {K = L} {X = R}) }
        ensures runs_back { ShowsInReverse (deref_pair {K = L} {X = R}) }
    {
        let table = &self.table;
        let rights = ByOrder::new(RightSide::new(&table.pairs));
        by_rank::range(
            &table.pairs,
            &table.right,
            RightProjection,
            &rights,
            start,
            end,
            &mut Count::new(),
        )
    }
}
