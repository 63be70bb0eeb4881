//! Equality, order and hashes of a map with an ordered left, by its pairs in ascending order of the lefts. It uses
//! iterators alone.
ghost use Rattle.std.specs.Prelude.{◌≡◌, ◌++◌, Some, refl};
ghost use Rattle.std.specs.Cmp.Lexicographic.{pointwise};
ghost use Rattle.std.specs.Hash as fed;
ghost use Rattle.std.specs.List.{flat_map, fold};
ghost use Rattle.bimap_any.specs.Same.{same, pair_eq, pair_cmp, lexicographic};
ghost use Rattle.bimap_any.proofs.SameSets.{same_per, same_equiv};
ghost use Rattle.bimap_any.proofs.SameAscending.{held_total, held_ties, held_po, held_alike};
ghost use Rattle.bimap_kinds.specs.Held.{holding};

use crate::map::BijectiveMap;
use bimap_index::Index;
use bimap_tree::Ordered;
use bimap_walk::by_rank::Iter;
use std::cmp::Ordering;
use std::hash::{Hash, Hasher};

/// Returns whether both maps have the same length, and each pair of one equals a pair of the other.
///
/// Time: That of iterating over both maps.
impl<L: Ord + Drop, R: Eq + Drop, J: Index<R>> PartialEq for BijectiveMap<L, R, Ordered, J> {
    ghost eq = { λ a b. same L.eq R.eq (holding a).pairs (holding b).pairs };

    ghost laws = { same_per L.eq R.eq L.PartialEq.laws R.PartialEq.laws (λ b. (holding b).pairs)
        (λ b. b.apart) };

    fn eq(&self, other: &Self) -> bool {
        if self.len() != other.len() {
            return false;
        }
        are_equal(self.iter(), other.iter())
    }
}

impl<L: Ord + Drop, R: Eq + Drop, J: Index<R>> Eq for BijectiveMap<L, R, Ordered, J> {
    ghost laws = { same_equiv L.eq R.eq L.Eq.laws R.Eq.laws (λ b. (holding b).pairs)
        (λ b. b.apart) };
}

/// Compares as `cmp` does. `partial_cmp` returns `Some` of what `cmp` returns.
///
/// Time: That of iterating over both maps.
impl<L: Ord + Drop, R: Ord + Drop, J: Index<R>> PartialOrd for BijectiveMap<L, R, Ordered, J> {
    ghost partial_cmp = { λ a b. Some (lexicographic L.cmp R.cmp (holding a).pairs
        (holding b).pairs) };

    ghost laws = { held_po L.eq R.eq L.total R.total L.matches_eq R.matches_eq
        (λ b. (holding b).pairs) (λ b. b.ascending) };

    fn partial_cmp(&self, other: &Self) -> Option<Ordering> {
        Some(self.cmp(other))
    }
}

/// Compares the pairs by ascending left, each by its left and then by its right.
///
/// If the pairs of one map are the beginning of the other's, that map is the lesser.
///
/// Time: That of iterating over both maps.
impl<L: Ord + Drop, R: Ord + Drop, J: Index<R>> Ord for BijectiveMap<L, R, Ordered, J> {
    ghost cmp = { λ a b. lexicographic L.cmp R.cmp (holding a).pairs (holding b).pairs };

    ghost total = { held_total L.eq R.eq L.total R.total L.matches_eq R.matches_eq
        (λ b. (holding b).pairs) (λ b. b.ascending) };

    ghost matches_partial_cmp = { λ x y. refl };

    ghost matches_eq = { held_ties L.eq R.eq L.total R.total L.matches_eq R.matches_eq
        (λ b. (holding b).pairs) (λ b. b.ascending) };

    fn cmp(&self, other: &Self) -> Ordering {
        order_of(self.iter(), other.iter())
    }
}

/// Hashes the length, and then each pair by ascending left.
///
/// Equal maps hash alike.
///
/// Time: That of iterating, and of hashing each value.
impl<L: Ord + Hash + Drop, R: Ord + Hash + Drop, J: Index<R>> Hash
    for BijectiveMap<L, R, Ordered, J> {
    ghost hash_input = { λ b. fed.slice (λ p. L.hash_input p.0 ++ R.hash_input p.1)
        (holding b).pairs };

    ghost respects_eq = { (held_alike L.eq R.eq L.total R.total L.matches_eq R.matches_eq
        (λ b. (holding b).pairs) (λ b. b.ascending) (record { fed = L.respects_eq })
        (record { fed = R.respects_eq })).fed };

    fn hash<H: Hasher>(&self, state: &mut H) {
        self.len().hash(state);
        feed(self.iter(), state);
    }
}

// Returns whether two pairs are equal on both sides.
fn is_equal_pair<L: PartialEq, R: PartialEq>(first: (&L, &R), second: (&L, &R)) -> bool
    ensures { result ≡ pair_eq L.eq R.eq (first.entry.0.now, first.entry.1.now)
        (second.entry.0.now, second.entry.1.now) }
{
    first.0 == second.0 && first.1 == second.1
}

// Returns whether two iterators give as many pairs, and equal ones at each step.
fn are_equal<L: PartialEq + Drop, R: PartialEq + Drop>(
    first: Iter<'_, L, R>,
    mut second: Iter<'_, L, R>,
) -> bool
    ensures { result ≡ pointwise (pair_eq L.eq R.eq) first.entry second.entry }
{
    for pair in first {
        match second.next() {
            Some(other) => {
                if !is_equal_pair(pair, other) {
                    return false;
                }
            }
            None => return false,
        }
    }
    second.next().is_none()
}

// Returns the order of two pairs: by left, then by right.
fn order_of_pair<L: Ord, R: Ord>(first: (&L, &R), second: (&L, &R)) -> Ordering
    ensures { result ≡ pair_cmp L.cmp R.cmp (first.entry.0.now, first.entry.1.now)
        (second.entry.0.now, second.entry.1.now) }
{
    first.0.cmp(second.0).then_with(|| first.1.cmp(second.1))
}

// Returns the lexicographic order of the pairs of two iterators.
fn order_of<L: Ord + Drop, R: Ord + Drop>(
    first: Iter<'_, L, R>,
    mut second: Iter<'_, L, R>,
) -> Ordering
    ensures { result ≡ lexicographic L.cmp R.cmp first.entry second.entry }
{
    for pair in first {
        let Some(other) = second.next() else {
            return Ordering::Greater;
        };
        match order_of_pair(pair, other) {
            Ordering::Equal => {}
            Ordering::Less => return Ordering::Less,
            Ordering::Greater => return Ordering::Greater,
        }
    }
    match second.next() {
        Some(_) => Ordering::Less,
        None => Ordering::Equal,
    }
}

// Hashes the pairs of an iterator, one after the other.
fn feed<L: Hash + Drop, R: Hash + Drop, H: Hasher>(pairs: Iter<'_, L, R>, state: &mut H)
    ensures { state.new ≡ fold H.write state.old
        (flat_map (λ p. L.hash_input p.0 ++ R.hash_input p.1) pairs.entry) }
{
    for (left, right) in pairs {
        left.hash(state);
        right.hash(state);
    }
}
