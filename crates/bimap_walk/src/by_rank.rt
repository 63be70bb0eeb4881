//! Iterators and ranges in the order of an ordered index.
ghost use Rattle.std.specs.Prelude.{◌≡◌, ◌≤◌, ◌+◌, ◌*◌, ℕ, length, option_map};
ghost use Rattle.std.specs.List.{All, filter};
ghost use Rattle.std.specs.Map.Iter.{ShowsInOrder, ShowsInReverse, GivesInOrder, GivesInReverse, deref_pair};
ghost use Rattle.bimap_base.specs.Digits.{most_height};
ghost use Rattle.bimap_base.specs.Keyed.{Ascends};
ghost use Rattle.bimap_base.specs.PairsAt.{pairs_at};
ghost use Rattle.bimap_base.specs.Slots.{IsLive, pair_at};
ghost use Rattle.bimap_tree.specs.Ranges.{is_between};

use crate::projection::Projection;
use crate::window::Window;
use bimap_base::{Keys, Meter, Pairs, Sought};
use bimap_tree::{Ordered, Span};
use std::ops::Bound;

/// An iterator over the pairs in ascending order of one side. Each item is `(&L, &R)`. A step takes at most one descent
/// in the index.
pub type Iter<'a, L, R> = crate::iter::Iter<'a, L, R, Ordered>;

/// An iterator over the lefts in the order of an index.
pub type LeftValues<'a, L, R> = crate::values::LeftValues<'a, L, R, Ordered>;

/// An iterator over the rights in the order of an index.
pub type RightValues<'a, L, R> = crate::values::RightValues<'a, L, R, Ordered>;

/// An iterator over the pairs whose left lies in a range, in the order of an index.
pub type LeftRange<'a, L, R> = Iter<'a, L, R>;

/// An iterator over the pairs whose right lies in a range, in the order of an index.
pub type RightRange<'a, L, R> = Iter<'a, L, R>;

/// An owning iterator over the pairs in the order of an index.
pub type IntoIter<L, R> = crate::into_iter::IntoIter<L, R, Ordered>;

/// Returns an iterator over the pairs at the listed places, in the order of the index.
pub fn iter<'a, L, R>(pairs: &'a Pairs<L, R>, index: &'a Ordered) -> Iter<'a, L, R>
    requires live { All (IsLive pairs.now) index.now.places }
    ensures { result ≡ pairs_at pairs.now index.now.places }
{
    Iter::new(pairs, index, Window::whole(index))
}

/// Returns an iterator over the pairs whose left or right lies between two ends. The projection says which of the two.
/// The index must be ordered by the same one.
///
/// It makes two searches. If the end lies before the start, the iterator shows no pair.
pub fn range<'a, L, R, P: Projection<L, R>, K: Keys<Key = P::Value>, Q: Sought<K>, M: Meter>(
    pairs: &'a Pairs<L, R>,
    index: &'a Ordered,
    _projection: P,
    keys: &K,
    start: Bound<Q>,
    end: Bound<Q>,
    meter: &mut M,
) -> Iter<'a, L, R>
    requires keys { (place : ℕ) → K.key_at keys.now place
        ≡ option_map P.of (pair_at pairs.now place) }
    requires ascends { Ascends (K.key_at keys.now) K.order index.now.places }
    ensures rest { result ≡ filter (λ p. is_between Q.order start end (P.of p))
        (pairs_at pairs.now index.now.places) }
    ensures runs { ShowsInOrder (deref_pair {K = L} {X = R}) }
    ensures runs_back { ShowsInReverse (deref_pair {K = L} {X = R}) }
    ensures comparisons { M.comparisons meter.new ≤ M.comparisons meter.old
        + 2 * most_height (length index.now.places) }
    ensures touches { M.touches meter.new ≤ M.touches meter.old
        + 4 * most_height (length index.now.places) }
{
    let span = Span::of(index, keys, start, end, meter);
    let window = Window::new(index, span.front, span.back);
    Iter::new(pairs, index, window)
}

/// Returns an owning iterator over the pairs, in the order of the index.
pub fn into_iter<L: Drop, R: Drop>(pairs: Pairs<L, R>, index: Ordered) -> IntoIter<L, R>
    requires live { All (IsLive pairs) index.places }
    ensures rest { result ≡ pairs_at pairs index.places }
    ensures runs { GivesInOrder (L × R) }
    ensures runs_back { GivesInReverse (L × R) }
{
    let window = Window::whole(&index);
    IntoIter::new(pairs, index, window)
}
