//! How an ordered index compares the places that it lists. The index knows nothing of the values of keys.
ghost use Rattle.std.specs.Prelude.{◌≡◌, ℕ, ◌+◌, Option, Some, IsSome};
ghost use Rattle.std.specs.declared.cmp.Ordering.{Ordering};
ghost use Rattle.std.specs.Cmp.{IsTotalOrder};
ghost use Rattle.bimap_base.specs.Keyed.{standing, Follows};

use crate::meter::Meter;
use std::cmp::Ordering;

/// Places that have keys, and a total order of the keys. Each call counts one comparison.
pub trait Keys {
    type Key;

    /// The key of a place, or `None` if the place has no key.
    ghost key_at: { Self → ℕ → Option Self.Key };

    /// The order of keys.
    ghost order: { Self.Key → Self.Key → Ordering };

    /// Returns how the key of a place compares with `key`.
    fn compare<M: Meter>(&self, place: usize, key: &Self::Key, meter: &mut M) -> Ordering
        requires live { IsSome (key_at self.now place) }
        ensures answer { result ≡ standing order (key_at self.now place) (Some key.now) }
        ensures comparisons { M.comparisons meter.new ≡ M.comparisons meter.old + 1 }
        ensures touches { M.touches meter.new ≡ M.touches meter.old };

    /// Returns how the key of the place `a` compares with the key of the place `b`.
    fn compare_places<M: Meter>(&self, a: usize, b: usize, meter: &mut M) -> Ordering
        requires first { IsSome (key_at self.now a) }
        requires second { IsSome (key_at self.now b) }
        ensures answer { result ≡ standing order (key_at self.now a) (key_at self.now b) }
        ensures comparisons { M.comparisons meter.new ≡ M.comparisons meter.old + 1 }
        ensures touches { M.touches meter.new ≡ M.touches meter.old };

    /// The order is total, and `Equal` is an equivalence.
    ghost total: { IsTotalOrder order };
}

/// A query by which places are found. Each call counts one comparison.
pub trait Sought<K: Keys>: Copy {
    /// How a key compares with the query.
    ghost order: { K.Key → Self → Ordering };

    /// Returns how the key of a place compares with the query.
    fn compare<M: Meter>(&self, keys: &K, place: usize, meter: &mut M) -> Ordering
        requires live { IsSome (K.key_at keys.now place) }
        ensures answer { result ≡ standing order (K.key_at keys.now place) (Some self.now) }
        ensures comparisons { M.comparisons meter.new ≡ M.comparisons meter.old + 1 }
        ensures touches { M.touches meter.new ≡ M.touches meter.old };

    /// If one key is below another key, and the other key is not above the query, then the first key is below the query.
    ghost follows: { Follows K.order order };
}
