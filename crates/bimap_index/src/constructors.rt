//! Traits to make an index: an empty one, a copy for a store of clones, and one for a store that was compacted.
ghost use Rattle.std.specs.Prelude.{◌≡◌, ◌≤◌, ◌+◌, ◌*◌, ℕ, List, Option, None, IfOk, length};
ghost use Rattle.bimap_base.specs.PairsAt.{pairs_at};
ghost use Rattle.bimap_base.specs.Places.{pairs_in};
ghost use Rattle.bimap_base.specs.Slots.{pair_at};
ghost use Rattle.bimap_index.specs.Listed.{IsCompactedSide};

use crate::index::Index;
use bimap_base::{Meter, NoMemory, Side};
use std::alloc::Global;

/// An index that can be made without another index.
pub trait EmptyIndex<K: Eq>: Index<K> {
    /// Returns an index that lists no place and has no cells. Never allocates.
    fn empty(alloc: Global) -> Self
        ensures listing { Self.is_listing result (λ _. None) }
        ensures cells { Self.cells result ≡ 0 };
}

/// The index that a map has on a side by default. It is `Ordered` or a `HashIndex` with the default hash builder, alone
/// or inside an `InsertionOrder`.
pub trait DefaultIndex<K: Eq>: EmptyIndex<K> {}

/// An index that can be copied for a store of the clones of the pairs.
pub trait CopiedIndex<K: Eq>: Index<K> {
    /// The second index finds keys as a copy of the first one does. Its hash builder is a clone of the first one's, if
    /// there is one.
    ghost finds_as: { Self → Self → Type 0 };

    /// Returns an index of the same places in the same order, with as many cells, that finds keys as this index does. It
    /// compares no keys. Its time is linear in the number of cells. If it has a hash builder, it hashes each key once,
    /// by the clone of the builder.
    ///
    /// It allocates all cells at once, what the index keeps beside them, and what cloning the hash builder allocates. If
    /// it runs out of memory, there is no index.
    fn copied<S: Side<K>>(&self, side: S) -> Result<Self, NoMemory>
        requires listing { Self.is_listing self.now (S.key_at side) }
        ensures listing { IfOk result (λ index. Self.is_listing index (S.key_at side)) }
        ensures places { IfOk result (λ index. Self.places index ≡ Self.places self.now) }
        ensures cells { IfOk result (λ index. Self.cells index ≡ Self.cells self.now) }
        ensures finds { IfOk result (λ index. finds_as self.now index) };

    /// If a copy and a later index find keys by the same builder, the later index finds keys as the copy does.
    ghost finds_on: { (index copy later : Self) → Self.finds_by later ≡ Self.finds_by copy →
        finds_as index copy → finds_as index later };
}

/// An index that can follow a store whose pairs are moved to its first places.
///
/// `compacted` allocates everything that is needed and changes nothing. `adopt` never allocates. This makes it possible
/// to compact a store and two indexes together, or none of them.
pub trait CompactedIndex<K: Eq>: Index<K> {
    /// What `compacted` prepares and `adopt` takes over.
    type Compacted: Drop;

    /// The value is what the index takes over if the store is compacted to this number of places.
    ghost is_compacted: { Self → ℕ → Self.Compacted → Type 0 };

    /// Returns what the index takes over when the store is compacted to `to` places. It looks at no key. Its time is
    /// proportional to the number of cells, except that `InsertionOrder` also sorts its places. If it runs out of
    /// memory, it makes nothing.
    fn compacted(&self, alloc: Global, to: usize) -> Result<Self::Compacted, NoMemory>
        requires listing { (f : ℕ → Option K) × Self.is_listing self.now f }
        requires room { length (Self.places self.now) ≤ to }
        ensures { IfOk result (λ compacted. is_compacted self.now to compacted) };

    /// Lists the places of the compacted side, and forgets the places listed before. The index still iterates over the
    /// keys in the same order. Never allocates.
    fn adopt<S: Side<K>, M: Meter>(&mut self, compacted: Self::Compacted, side: S, meter: &mut M)
        requires from { (to : ℕ) × (f : ℕ → Option K) × is_compacted self.old to compacted
            × Self.is_listing self.old f × IsCompactedSide f (S.key_at side) to }
        ensures listing { Self.is_listing self.new (S.key_at side) }
        ensures walk { (to : ℕ) (keys moved : List (Option K)) →
            is_compacted self.old to compacted → Self.is_listing self.old (pair_at keys) →
            Self.is_listing self.new (pair_at moved) →
            pairs_in moved ≡ pairs_in keys →
            pairs_at moved (Self.places self.new) ≡ pairs_at keys (Self.places self.old) }
        ensures finds_by { Self.finds_by self.new ≡ Self.finds_by self.old }
        ensures cells { (to : ℕ) → is_compacted self.old to compacted → Self.cells self.new ≡ to }
        ensures comparisons { M.comparisons meter.new ≤ M.comparisons meter.old
            + length (Self.places self.old) * Self.effort (length (Self.places self.old)) }
        ensures touches { M.touches meter.new ≤ M.touches meter.old
            + length (Self.places self.old)
            * (64 * (Self.effort (length (Self.places self.old)) + 1)) };
}
