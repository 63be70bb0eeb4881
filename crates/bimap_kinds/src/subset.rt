//! Whether the pairs of a map are among those of another, of any kind. It uses iterators and look-ups alone.
ghost use Rattle.std.specs.Prelude.{◌↔◌, IsTrue, Contains};
ghost use Rattle.bimap_any.specs.Same.{HasEqual, IsSame};
ghost use Rattle.bimap_kinds.specs.Held.{holding};

use crate::map::BijectiveMap;
use crate::walked_index::WalkedIndex;
use bimap_any::{Bijection, contains_pair};
use bimap_index::Index;

impl<L: Eq + Drop, R: Eq + Drop, I: WalkedIndex<L>, J: Index<R>> BijectiveMap<L, R, I, J> {
    /// Returns whether each pair of this map equals a pair of the other on both sides.
    ///
    /// The other map may be of another kind, as `hashed` is, a `BiHashMap` of the same pairs. It stops at the first
    /// pair that the other map does not contain.
    ///
    /// Time: That of iterating, and of a look-up by left in the other map for each pair.
    ///
    ///     seats.is_subset_of(hashed); // true
    pub fn is_subset_of<B: Bijection<L, R>>(&self, other: &B) -> bool
        ensures { IsTrue result ↔ ((p : L × R) → Contains (holding self.now).pairs p
            → HasEqual L.eq R.eq (Contains (B.holding other.now).pairs) p) }
    {
        for (left, right) in self.iter() {
            if !contains_pair(other, left, right) {
                return false;
            }
        }
        true
    }

    /// Returns whether both maps have the same length, and each pair of this map equals a pair of the other.
    ///
    /// The other map may be of another kind.
    ///
    /// Time: That of iterating, and of a look-up by left in the other map for each pair. O(1) if the lengths differ.
    ///
    ///     seats.holds_same_pairs(hashed); // true
    pub fn holds_same_pairs<B: Bijection<L, R>>(&self, other: &B) -> bool
        ensures { IsTrue result
            ↔ IsSame L.eq R.eq (holding self.now).pairs (B.holding other.now).pairs }
    {
        self.len() == other.len() && self.is_subset_of(other)
    }
}
