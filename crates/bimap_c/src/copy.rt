//! Clones of tables.
ghost use Rattle.std.specs.Prelude.{◌≡◌, true, IfSome};
ghost use Rattle.bimap.specs.BTree.{holding};
ghost use Rattle.bimap.specs.Copies.{AreClonesEqual};
ghost use Rattle.bimap_c.specs.Bytes.{kept};
ghost use Rattle.bimap_c.specs.Compared.{IsCloneOf, IsOfSameKind, IsSameNumber, IsTableCloneOf};
ghost use Rattle.bimap_c.specs.Kinds.{map_kinds};

use crate::bytes::{AnyBytesTable, table_of};
use bimap::{BijectiveMap, Seeded, WalkedIndex};
use bimap_dynamic::{AnyMap, AnyOf};
use bimap_index::CopiedIndex;
use std::hash::Hash;

/// Returns a clone of a map of numbers, or `None` if there is no memory for it.
pub(crate) fn clone_numbers(
    map: &AnyMap<u64, u64, Seeded, Seeded>,
) -> Option<AnyMap<u64, u64, Seeded, Seeded>>
    ensures { IfSome result (λ copy. IsOfSameKind (IsCloneOf IsSameNumber IsSameNumber)
        (map_kinds holding holding holding map.now) (map_kinds holding holding holding copy)) }
{
    match map {
        AnyOf::Ordered(map) => Some(AnyOf::Ordered(clone_of(map)?)),
        AnyOf::Hashed(map) => Some(AnyOf::Hashed(clone_of(map)?)),
        AnyOf::InsertionOrder(map) => Some(AnyOf::InsertionOrder(clone_of(map)?)),
    }
}

/// Returns a clone of a table, or `None` if there is no memory for it.
pub(crate) fn clone_table<R: Ord + Hash + Clone + Drop>(
    table: &AnyBytesTable<R>,
) -> Option<AnyBytesTable<R>>
    requires { (right copy : R) → R.is_clone right copy → R.eq right copy ≡ true }
    ensures { IfSome result (λ copy. IsOfSameKind (IsTableCloneOf R.is_clone)
        (map_kinds (kept holding) (kept holding) (kept holding) table.now)
        (map_kinds (kept holding) (kept holding) (kept holding) copy)) }
{
    match table {
        AnyOf::Ordered(it) => {
            let map = clone_of(&it.map)?;
            Some(AnyOf::Ordered(table_of(map, it.seed)))
        }
        AnyOf::Hashed(it) => {
            let map = clone_of(&it.map)?;
            Some(AnyOf::Hashed(table_of(map, it.seed)))
        }
        AnyOf::InsertionOrder(it) => {
            let map = clone_of(&it.map)?;
            Some(AnyOf::InsertionOrder(table_of(map, it.seed)))
        }
    }
}

// Returns a clone of a map, or `None` if there is no memory for it.
fn clone_of<
    L: Eq + Clone + Drop,
    R: Eq + Clone + Drop,
    I: CopiedIndex<L> + WalkedIndex<L> + Drop,
    J: CopiedIndex<R> + Drop,
>(map: &BijectiveMap<L, R, I, J>) -> Option<BijectiveMap<L, R, I, J>>
    requires { AreClonesEqual L.is_clone R.is_clone L.eq R.eq (holding map.now).pairs }
    ensures { IfSome result (λ copy. IsCloneOf L.is_clone R.is_clone (holding map.now)
        (holding copy)) }
{
    match map.clone() {
        Ok(copy) => Some(copy),
        Err(_) => None,
    }
}
