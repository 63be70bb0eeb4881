//! Maps in a `for`, which needs the index of the left named.
ghost use Rattle.std.specs.Prelude.{◌≡◌};
ghost use Rattle.std.specs.Map.Iter.{ShowsInOrder, ShowsInReverse, GivesInOrder, GivesInReverse, deref_pair};
ghost use Rattle.bimap_kinds.specs.Held.{holding};

use crate::map::BijectiveMap;
use bimap_core::Table;
use bimap_index::{HashIndex, Index, InsertionOrder};
use bimap_tree::Ordered;
use bimap_walk::{by_insertion, by_place, by_rank};
use std::hash::{BuildHasher, Hash};

/// Iterates over the pairs as [`iter`](BijectiveMap::iter) does.
///
/// Time: O(log n) at most for a step.
impl<'a, L: Ord + Drop, R: Eq + Drop, J: Index<R>> IntoIterator
    for &'a BijectiveMap<L, R, Ordered, J> {
    type Item = (&'a L, &'a R);

    type IntoIter = by_rank::Iter<'a, L, R>;

    ghost into_iter_gives = { λ m r. (r ≡ (holding m.now).pairs)
        × ShowsInOrder (deref_pair {K = L} {X = R}) × ShowsInReverse (deref_pair {K = L} {X = R}) };

    fn into_iter(self) -> by_rank::Iter<'a, L, R> {
        self.iter()
    }
}

/// Iterates over the pairs by value, in the order of [`iter`](BijectiveMap::iter).
///
/// Time: O(log n) at most for a step.
impl<L: Ord + Drop, R: Eq + Drop, J: Index<R> + Drop> IntoIterator
    for BijectiveMap<L, R, Ordered, J> {
    type Item = (L, R);

    type IntoIter = by_rank::IntoIter<L, R>;

    ghost into_iter_gives = { λ m r. (r ≡ (holding m).pairs) × GivesInOrder (L × R)
        × GivesInReverse (L × R) };

    fn into_iter(self) -> by_rank::IntoIter<L, R> {
        let Table { pairs, left, .. } = self.into_table();
        by_rank::into_iter(pairs, left)
    }
}

/// Iterates over the pairs as [`iter`](BijectiveMap::iter) does.
///
/// Time: O(capacity) for all steps.
impl<'a, L: Eq + Hash, R: Eq, LS: BuildHasher, J: Index<R>> IntoIterator
    for &'a BijectiveMap<L, R, HashIndex<LS>, J> {
    type Item = (&'a L, &'a R);

    type IntoIter = by_place::Iter<'a, L, R>;

    ghost into_iter_gives = { λ m r. (r ≡ (holding m.now).pairs)
        × ShowsInOrder (deref_pair {K = L} {X = R}) };

    fn into_iter(self) -> by_place::Iter<'a, L, R> {
        self.iter()
    }
}

/// Iterates over the pairs by value, in the order of [`iter`](BijectiveMap::iter).
///
/// Time: O(capacity) for all steps.
impl<L: Eq + Hash + Drop, R: Eq + Drop, LS: BuildHasher + Drop, J: Index<R> + Drop> IntoIterator
    for BijectiveMap<L, R, HashIndex<LS>, J> {
    type Item = (L, R);

    type IntoIter = by_place::IntoIter<L, R>;

    ghost into_iter_gives = { λ m r. (r ≡ (holding m).pairs) × GivesInOrder (L × R) };

    fn into_iter(self) -> by_place::IntoIter<L, R> {
        let Table { pairs, .. } = self.into_table();
        by_place::into_iter(pairs)
    }
}

/// Iterates over the pairs as [`iter`](BijectiveMap::iter) does.
///
/// Time: O(1) for a step.
impl<'a, L: Eq + Drop, R: Eq + Drop, I: Index<L>, J: Index<R>> IntoIterator
    for &'a BijectiveMap<L, R, InsertionOrder<I>, J> {
    type Item = (&'a L, &'a R);

    type IntoIter = by_insertion::Iter<'a, L, R>;

    ghost into_iter_gives = { λ m r. (r ≡ (holding m.now).pairs)
        × ShowsInOrder (deref_pair {K = L} {X = R}) × ShowsInReverse (deref_pair {K = L} {X = R}) };

    fn into_iter(self) -> by_insertion::Iter<'a, L, R> {
        self.iter()
    }
}

/// Iterates over the pairs by value, in the order of [`iter`](BijectiveMap::iter).
///
/// Time: O(1) for a step.
impl<L: Eq + Drop, R: Eq + Drop, I: Index<L> + Drop, J: Index<R> + Drop> IntoIterator
    for BijectiveMap<L, R, InsertionOrder<I>, J> {
    type Item = (L, R);

    type IntoIter = by_insertion::IntoIter<L, R>;

    ghost into_iter_gives = { λ m r. (r ≡ (holding m).pairs) × GivesInOrder (L × R)
        × GivesInReverse (L × R) };

    fn into_iter(self) -> by_insertion::IntoIter<L, R> {
        let Table { pairs, left, .. } = self.into_table();
        by_insertion::into_iter(pairs, left.into_list())
    }
}
