//! The functions for C of two tables of byte strings and numbers.
ghost use Rattle.std.specs.Prelude.{nat_eq};
ghost use Rattle.bimap.specs.Same.{IsSame};
ghost use Rattle.bimap_c.specs.Bytes.{same_bytes};
ghost use Rattle.bimap_c.specs.Calls.{Tests};
ghost use Rattle.bimap_c.specs.Compared.{Clones, IsSameNumber, IsTableCloneOf, IsSubset, ReadsBoth};
ghost use Rattle.bimap_c.specs.Tables.{bytes_u64};

use crate::calls::found;
use crate::compare;
use crate::copy::clone_table;
use crate::handle::Handle;
use std::alloc::Global;

/// Makes a clone of the table for a handle `copy` that has no table. The clone has the kind, the seed, the capacity and
/// the pairs of the table, in the same order. It keeps no overwritten pair. The time grows with the capacity and the
/// bytes. Returns 1 if there is no memory. Returns 2 also if `copy` has a table.
#[unsafe(no_mangle)]
pub extern "C" fn jetukoma_bytes_u64_clone_unchecked(
    alloc: Global,
    handle: &mut Handle,
    copy: &mut Handle,
) -> u32
    ensures { Clones bytes_u64 handle.old.table.value result handle.new.table.value
        copy.old.table.value copy.new.table.value (IsTableCloneOf IsSameNumber) }
{
    clone_into!(handle, copy, alloc, BytesU64, table => clone_table(table))
}

/// Returns 0 if both tables have the same pairs, and 5 if they do not. The tables may be of two kinds, and their orders
/// do not matter. It takes a look-up by left in the other table for each pair.
#[unsafe(no_mangle)]
pub extern "C" fn jetukoma_bytes_u64_equals_unchecked(
    alloc: Global,
    handle: &mut Handle,
    other: &mut Handle,
) -> u32
    ensures { ReadsBoth bytes_u64 handle.old.table.value result handle.new.table.value
        other.old.table.value other.new.table.value
        (λ it other. Tests (IsSame same_bytes nat_eq it.held.pairs other.held.pairs) result) }
{
    on_both!(handle, other, alloc, BytesU64, table, others => found(compare::equals_bytes(table, others)))
}

/// Returns 0 if the other table contains each pair of the table, and 5 if it does not. The tables may be of two kinds.
/// It takes a look-up by left in the other table for each pair.
#[unsafe(no_mangle)]
pub extern "C" fn jetukoma_bytes_u64_is_subset_unchecked(
    alloc: Global,
    handle: &mut Handle,
    other: &mut Handle,
) -> u32
    ensures { ReadsBoth bytes_u64 handle.old.table.value result handle.new.table.value
        other.old.table.value other.new.table.value
        (λ it other. Tests (IsSubset same_bytes nat_eq it.held.pairs other.held.pairs) result) }
{
    on_both!(handle, other, alloc, BytesU64, table, others => found(compare::is_bytes_subset(table, others)))
}
