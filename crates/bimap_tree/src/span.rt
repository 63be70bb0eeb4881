//! The ranks of a range of keys. The code here knows an index and its keys, and no node.
ghost use Rattle.std.specs.Prelude.{◌≤◌, ◌+◌, ◌*◌, length};
ghost use Rattle.bimap_base.specs.Digits.{most_height};
ghost use Rattle.bimap_base.specs.Keyed.{Ascends};
ghost use Rattle.bimap_tree.specs.Ranges.{is_between, is_past_end};
ghost use Rattle.bimap_tree.specs.Spans.{IsCut, IsSpan};

use crate::ordered::Ordered;
use bimap_base::{Keys, Meter, Sought};
use std::ops::Bound;

/// The ranks from `front` up to, but without, `back`.
#[derive(Clone, Copy, Drop)]
pub struct Span {
    pub front: usize,
    pub back: usize,
}

// Returns the first rank whose key is past an end. If no key is past it, returns the length.
fn rank_of_end<K: Keys, Q: Sought<K>, M: Meter>(
    index: &Ordered,
    keys: &K,
    end: Bound<Q>,
    meter: &mut M,
) -> usize
    requires { Ascends (K.key_at keys.now) K.order index.now.places }
    ensures cut { IsCut (is_past_end Q.order end)
        (K.key_at keys.now) index.now.places result }
    ensures comparisons { M.comparisons meter.new ≤ M.comparisons meter.old
        + most_height (length index.now.places) }
    ensures touches { M.touches meter.new ≤ M.touches meter.old
        + 2 * most_height (length index.now.places) }
{
    match end {
        Bound::Unbounded => index.len(),
        Bound::Included(query) => index.rank_from(keys, Bound::Excluded(query), meter),
        Bound::Excluded(query) => index.rank_from(keys, Bound::Included(query), meter),
    }
}

impl Span {
    /// Returns the ranks of the keys between two ends. If the end is before the start, there are none. Takes two searches. Never
    /// allocates.
    pub fn of<K: Keys, Q: Sought<K>, M: Meter>(
        index: &Ordered,
        keys: &K,
        start: Bound<Q>,
        end: Bound<Q>,
        meter: &mut M,
    ) -> Span
        requires { Ascends (K.key_at keys.now) K.order index.now.places }
        ensures ordered { result.front ≤ result.back }
        ensures within { result.back ≤ length index.now.places }
        ensures inside { IsSpan (is_between Q.order start end)
            (K.key_at keys.now) index.now.places result.front result.back }
        ensures comparisons { M.comparisons meter.new ≤ M.comparisons meter.old
            + 2 * most_height (length index.now.places) }
        ensures touches { M.touches meter.new ≤ M.touches meter.old
            + 4 * most_height (length index.now.places) }
    {
        let front = index.rank_from(keys, start, meter);
        let back = rank_of_end(index, keys, end, meter);
        Span {
            front,
            back: back.max(front),
        }
    }
}
