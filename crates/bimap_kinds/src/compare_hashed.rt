//! Equality of a map with a hashed left. It uses iterators and look-ups alone.
ghost use Rattle.std.specs.Prelude.{◌≡◌, ◌↔◌, IsTrue, Contains};
ghost use Rattle.bimap_any.specs.Same.{same, HasEqual};
ghost use Rattle.bimap_any.proofs.SameSets.{same_per, same_equiv};
ghost use Rattle.bimap_kinds.specs.Held.{holding};

use crate::map::BijectiveMap;
use crate::walked_index::WalkedIndex;
use bimap_index::{HashIndex, Index, InsertionOrder};
use std::hash::{BuildHasher, Hash};

/// Returns whether both maps have the same length, and each pair of one equals a pair of the other.
///
/// The hash builders do not matter.
///
/// Time: That of iterating over one map, and of a look-up by left in the other for each pair.
impl<L: Eq + Hash, R: Eq, LS: BuildHasher, J: Index<R>> PartialEq
    for BijectiveMap<L, R, HashIndex<LS>, J> {
    ghost eq = { λ a b. same L.eq R.eq (holding a).pairs (holding b).pairs };

    ghost laws = { same_per L.eq R.eq L.PartialEq.laws R.PartialEq.laws (λ b. (holding b).pairs) (λ b. b.apart) };

    fn eq(&self, other: &Self) -> bool {
        self.has_equal_pairs(other)
    }
}

impl<L: Eq + Hash, R: Eq, LS: BuildHasher, J: Index<R>> Eq
    for BijectiveMap<L, R, HashIndex<LS>, J> {
    ghost laws = { same_equiv L.eq R.eq L.Eq.laws R.Eq.laws (λ b. (holding b).pairs) (λ b. b.apart) };
}

/// Returns whether both maps have the same length, and each pair of one equals a pair of the other.
///
/// The insertion order does not matter.
///
/// Time: That of iterating over one map, and of a look-up by left in the other for each pair.
impl<L: Eq, R: Eq, I: Index<L>, J: Index<R>> PartialEq
    for BijectiveMap<L, R, InsertionOrder<I>, J> {
    ghost eq = { λ a b. same L.eq R.eq (holding a).pairs (holding b).pairs };

    ghost laws = { same_per L.eq R.eq L.PartialEq.laws R.PartialEq.laws (λ b. (holding b).pairs) (λ b. b.apart) };

    fn eq(&self, other: &Self) -> bool {
        self.has_equal_pairs(other)
    }
}

impl<L: Eq, R: Eq, I: Index<L>, J: Index<R>> Eq for BijectiveMap<L, R, InsertionOrder<I>, J> {
    ghost laws = { same_equiv L.eq R.eq L.Eq.laws R.Eq.laws (λ b. (holding b).pairs) (λ b. b.apart) };
}

impl<L: Eq, R: Eq, I: WalkedIndex<L>, J: Index<R>> BijectiveMap<L, R, I, J> {
    // Returns whether both maps have the same pairs, up to equality.
    fn has_equal_pairs(&self, other: &Self) -> bool
        ensures { result ≡ same L.eq R.eq (holding self.now).pairs (holding other.now).pairs }
    {
        if self.len() != other.len() {
            return false;
        }
        let mut walk = self.iter();
        while let Some((left, right)) = walk.next() {
            if !other.has_equal(left, right) {
                return false;
            }
        }
        true
    }
}

impl<L: Eq, R: Eq, I: Index<L>, J: Index<R>> BijectiveMap<L, R, I, J> {
    // Returns whether the map contains a pair that equals this one on both sides.
    fn has_equal(&self, left: &L, right: &R) -> bool
        ensures { IsTrue result ↔ HasEqual L.eq R.eq (Contains (holding self.now).pairs)
            (left.now, right.now) }
    {
        match self.get_by_left(left) {
            Some(held) => *right == *held,
            None => false,
        }
    }
}
