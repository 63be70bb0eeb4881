//! How each index leads an iterator. It knows no rank, and no hash.
ghost use Rattle.std.specs.Prelude.{◌≡◌, ℕ, is_some};
ghost use Rattle.bimap_base.specs.PairsAt.{pairs_at};
ghost use Rattle.bimap_base.specs.Slots.{pair_at};

use bimap_base::{Pairs, Side};
use bimap_core::PartedIndex;
use bimap_index::{HashIndex, Index, InsertionOrder};
use bimap_list::LinkedList;
use bimap_tree::Ordered;
use bimap_walk::{ByPlace, Course, Iter, by_insertion, by_place, by_rank};
use std::hash::{BuildHasher, Hash};

/// An index that leads an iterator through the pairs of a store. Each of the five maps has one on its left.
pub trait WalkedIndex<K: Eq>: PartedIndex<K> {
    type Way: Course + 'static;

    /// Returns an iterator over all pairs of a store, of which the index lists a side.
    ///
    /// Time: O(1).
    fn walk<'a, S: Side<K>, L, R>(
        &'a self,
        side: S,
        pairs: &'a Pairs<L, R>,
    ) -> Iter<'a, L, R, Self::Way>
        requires listing { Self.is_listing self.now (S.key_at side) }
        requires of_store { (place : ℕ) → is_some (S.key_at side place)
            ≡ is_some (pair_at pairs.now place) }
        ensures { result ≡ pairs_at pairs.now (Self.places self.now) };
}

impl<K: Ord> WalkedIndex<K> for Ordered {
    type Way = Ordered;

    fn walk<'a, S: Side<K>, L, R>(
        &'a self,
        _side: S,
        pairs: &'a Pairs<L, R>,
    ) -> by_rank::Iter<'a, L, R> {
        by_rank::iter(pairs, self)
    }
}

impl<K: Eq + Hash, B: BuildHasher> WalkedIndex<K> for HashIndex<B> {
    type Way = ByPlace;

    fn walk<'a, S: Side<K>, L, R>(
        &'a self,
        _side: S,
        pairs: &'a Pairs<L, R>,
    ) -> by_place::Iter<'a, L, R> {
        by_place::iter(pairs)
    }
}

impl<K: Eq, I: Index<K>> WalkedIndex<K> for InsertionOrder<I> {
    type Way = LinkedList;

    fn walk<'a, S: Side<K>, L, R>(
        &'a self,
        _side: S,
        pairs: &'a Pairs<L, R>,
    ) -> by_insertion::Iter<'a, L, R> {
        by_insertion::iter(pairs, self.list())
    }
}
