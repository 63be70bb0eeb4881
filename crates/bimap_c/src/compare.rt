//! Whether the pairs of a table are among those of another table, which may be of another kind.
ghost use Rattle.std.specs.Prelude.{◌≡◌, ◌↔◌, IsTrue, length};
ghost use Rattle.bimap.specs.BTree.{holding};
ghost use Rattle.bimap.specs.Same.{IsSame};
ghost use Rattle.bimap_c.specs.Bytes.{kept, same_bytes};
ghost use Rattle.bimap_c.specs.Compared.{IsSubset};
ghost use Rattle.bimap_c.specs.Kinds.{in_kind, map_kinds};

use crate::byte_string::ByteString;
use crate::bytes::AnyBytesTable;
use bimap::{BijectiveMap, Index, Seeded, WalkedIndex};
use bimap_dynamic::{AnyMap, AnyOf};
use std::hash::Hash;

/// Returns whether each pair of a map equals a pair of another map.
pub(crate) fn is_subset<L: Ord + Hash + Drop, R: Ord + Hash + Drop>(
    map: &AnyMap<L, R, Seeded, Seeded>,
    other: &AnyMap<L, R, Seeded, Seeded>,
) -> bool
    ensures { IsTrue result ↔ IsSubset L.eq R.eq
        (in_kind (map_kinds holding holding holding map.now)).pairs
        (in_kind (map_kinds holding holding holding other.now)).pairs }
{
    match map {
        AnyOf::Ordered(map) => map.is_subset_of(other),
        AnyOf::Hashed(map) => map.is_subset_of(other),
        AnyOf::InsertionOrder(map) => map.is_subset_of(other),
    }
}

/// Returns whether both maps have the same pairs.
pub(crate) fn equals<L: Ord + Hash + Drop, R: Ord + Hash + Drop>(
    map: &AnyMap<L, R, Seeded, Seeded>,
    other: &AnyMap<L, R, Seeded, Seeded>,
) -> bool
    ensures { IsTrue result ↔ IsSame L.eq R.eq
        (in_kind (map_kinds holding holding holding map.now)).pairs
        (in_kind (map_kinds holding holding holding other.now)).pairs }
{
    len(map) == len(other) && is_subset(map, other)
}

fn len<L: Ord + Hash + Drop, R: Ord + Hash + Drop>(map: &AnyMap<L, R, Seeded, Seeded>) -> usize
    ensures { let it = in_kind (map_kinds holding holding holding map.now) in
        result ≡ length it.pairs }
{
    match map {
        AnyOf::Ordered(map) => map.len(),
        AnyOf::Hashed(map) => map.len(),
        AnyOf::InsertionOrder(map) => map.len(),
    }
}

/// Returns whether each pair of a table equals a pair of another table.
pub(crate) fn is_bytes_subset<R: Ord + Hash + Drop>(
    table: &AnyBytesTable<R>,
    other: &AnyBytesTable<R>,
) -> bool
    ensures { IsTrue result ↔ IsSubset same_bytes R.eq
        (in_kind (map_kinds (kept holding) (kept holding) (kept holding) table.now)).held.pairs
        (in_kind (map_kinds (kept holding) (kept holding) (kept holding) other.now)).held.pairs }
{
    match table {
        AnyOf::Ordered(it) => is_subset_of_table(&it.map, other),
        AnyOf::Hashed(it) => is_subset_of_table(&it.map, other),
        AnyOf::InsertionOrder(it) => is_subset_of_table(&it.map, other),
    }
}

fn is_subset_of_table<R: Ord + Hash + Drop, I: WalkedIndex<ByteString>, J: Index<R>>(
    map: &BijectiveMap<ByteString, R, I, J>,
    other: &AnyBytesTable<R>,
) -> bool
    ensures { IsTrue result ↔ IsSubset same_bytes R.eq (holding map.now).pairs
        (in_kind (map_kinds (kept holding) (kept holding) (kept holding) other.now)).held.pairs }
{
    match other {
        AnyOf::Ordered(it) => map.is_subset_of(&it.map),
        AnyOf::Hashed(it) => map.is_subset_of(&it.map),
        AnyOf::InsertionOrder(it) => map.is_subset_of(&it.map),
    }
}

/// Returns whether both tables have the same pairs.
pub(crate) fn equals_bytes<R: Ord + Hash + Drop>(
    table: &AnyBytesTable<R>,
    other: &AnyBytesTable<R>,
) -> bool
    ensures { IsTrue result ↔ IsSame same_bytes R.eq
        (in_kind (map_kinds (kept holding) (kept holding) (kept holding) table.now)).held.pairs
        (in_kind (map_kinds (kept holding) (kept holding) (kept holding) other.now)).held.pairs }
{
    bytes_len(table) == bytes_len(other) && is_bytes_subset(table, other)
}

fn bytes_len<R: Ord + Hash + Drop>(table: &AnyBytesTable<R>) -> usize
    ensures { let it = in_kind (map_kinds (kept holding) (kept holding) (kept holding) table.now) in
        result ≡ length it.held.pairs }
{
    match table {
        AnyOf::Ordered(it) => it.map.len(),
        AnyOf::Hashed(it) => it.map.len(),
        AnyOf::InsertionOrder(it) => it.map.len(),
    }
}
