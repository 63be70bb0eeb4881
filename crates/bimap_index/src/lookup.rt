//! Look-ups by a `Query`: a reference to a key, or a borrowed form of one.
ghost use Rattle.std.specs.Prelude.{◌≡◌, ◌+◌, ◌*◌, ◌≤◌, ℕ, Option, length, IfSome, IfNone};
ghost use Rattle.bimap_index.specs.Listed.{IsFoundBy, IsWithout};
ghost use Rattle.bimap_base.specs.Positions.{IsTakenOut};

use crate::index::Index;
use bimap_base::{Meter, Query, Side};

/// An index in which a key can be looked up by this type of `Query`. Every index can be searched by a reference to a
/// key.
pub trait Lookup<K: Eq, Q: Query<K>>: Index<K> {
    /// Returns the place whose key the look-up asks for, if there is one.
    fn find_by<S: Side<K>, M: Meter>(&self, side: S, query: Q, meter: &mut M) -> Option<usize>
        requires listing { Self.is_listing self.now (S.key_at side) }
        ensures found { IsFoundBy (S.key_at side) Q.same query result }
        ensures comparisons { M.comparisons meter.new ≤ M.comparisons meter.old
            + Self.effort (length (Self.places self.now)) }
        ensures touches { M.touches meter.new ≤ M.touches meter.old
            + Self.effort (length (Self.places self.now)) };

    /// Removes the place whose key the look-up asks for from the list and returns it. If there is none, nothing
    /// changes.
    fn unlink_by<S: Side<K>, M: Meter>(&mut self, side: S, query: Q, meter: &mut M) -> Option<usize>
        requires listing { Self.is_listing self.old (S.key_at side) }
        ensures found { IsFoundBy (S.key_at side) Q.same query result }
        ensures listing { IfSome result (λ place. (f : ℕ → Option K) →
            IsWithout f (S.key_at side) place → Self.is_listing self.new f) }
        ensures others { Self.appends → IfSome result (λ place.
            IsTakenOut (Self.places self.old) place (Self.places self.new)) }
        ensures unchanged { IfNone result (self.new ≡ self.old) }
        ensures finds_by { Self.finds_by self.new ≡ Self.finds_by self.old }
        ensures cells { Self.cells self.new ≡ Self.cells self.old }
        ensures comparisons { M.comparisons meter.new ≤ M.comparisons meter.old
            + Self.effort (length (Self.places self.old)) }
        ensures touches { M.touches meter.new ≤ M.touches meter.old
            + 64 * (Self.effort (length (Self.places self.old)) + 1) };
}

impl<K: Eq, I: Index<K>> Lookup<K, &K> for I {
    #[inline(always)]
    fn find_by<S: Side<K>, M: Meter>(&self, side: S, query: &K, meter: &mut M) -> Option<usize> {
        self.find(side, query, meter)
    }

    fn unlink_by<S: Side<K>, M: Meter>(
        &mut self,
        side: S,
        query: &K,
        meter: &mut M,
    ) -> Option<usize> {
        self.unlink_key(side, query, meter)
    }
}
