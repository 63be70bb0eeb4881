//! The functions for C of a table of two numbers.
ghost use Rattle.std.specs.Prelude.{◌≡◌, [], length, nat_eq, Contains};
ghost use Rattle.bimap.specs.Sets.{HasLeft, HasRight};
ghost use Rattle.bimap_c.specs.Calls.{IsWritten, Reads, Changes, Makes, Frees, Tests, Reserves, Shrinks, Clears};
ghost use Rattle.bimap_c.specs.Tables.{u64_u64, u64_u64_builders, AreSeeded};
ghost use Rattle.bimap_c.specs.U64U64.{GetsByLeft, GetsByRight, Inserts, InsertsNew, InsertsFlagged, InsertsMany, RemovesByLeft, RemovesByRight};

use crate::c_table::CTable;
use crate::calls;
use crate::handle::Handle;
use crate::status::REFUSED;
use crate::u64_u64::{NO_PAIR, NOTHING, Overwritten, Pair};
use crate::u64_u64_calls::{NumbersChange, NumbersReading};
use std::alloc::Global;

/// Makes an empty table of capacity 0 for a handle that has no table. The kind is one of the numbers above. The hashes
/// of both sides depend on the seed. An ordered table does not use the seed. The call takes constant time. Returns 1 if
/// there is no memory, 2 if the handle has a table, and 3 if there is no such kind.
#[unsafe(no_mangle)]
pub extern "C" fn jetukoma_u64_u64_new_unchecked(
    alloc: Global,
    handle: &mut Handle,
    kind: u32,
    seed: u64,
) -> u32
    ensures made { Makes u64_u64 handle.old.table.value result handle.new.table.value kind
        (λ held. (held.pairs ≡ []) × (held.room ≡ 0)) }
    ensures seeded { Makes u64_u64_builders handle.old.table.value result
        handle.new.table.value kind (AreSeeded seed) }
{
    match calls::new_map(alloc, kind, seed) {
        Some(map) => handle.make(alloc, CTable::U64U64(map)),
        None => REFUSED,
    }
}

/// Frees the table. The handle has no table then. The time grows with the capacity. Returns 2 if the handle has no
/// table.
#[unsafe(no_mangle)]
pub extern "C" fn jetukoma_u64_u64_free_unchecked(alloc: Global, handle: &mut Handle) -> u32
    ensures { Frees handle.old.table.value result handle.new.table.value }
{
    handle.free(alloc)
}

/// Writes the number of pairs. It takes constant time.
#[unsafe(no_mangle)]
pub extern "C" fn jetukoma_u64_u64_len_unchecked(
    alloc: Global,
    handle: &mut Handle,
    len: &mut usize,
) -> u32
    ensures answer { Reads u64_u64 handle.old.table.value result handle.new.table.value
        (λ held. (result ≡ 0) × (len.new ≡ length held.pairs)) }
    ensures out { IsWritten result len.old len.new }
{
    handle.read_numbers(alloc, NumbersReading::Len, len, &mut 0)
}

/// Writes the capacity, which is the number of pairs for which there is memory. It takes constant time.
#[unsafe(no_mangle)]
pub extern "C" fn jetukoma_u64_u64_capacity_unchecked(
    alloc: Global,
    handle: &mut Handle,
    capacity: &mut usize,
) -> u32
    ensures answer { Reads u64_u64 handle.old.table.value result handle.new.table.value
        (λ held. (result ≡ 0) × (capacity.new ≡ held.room)) }
    ensures out { IsWritten result capacity.old capacity.new }
{
    handle.read_numbers(alloc, NumbersReading::Capacity, capacity, &mut 0)
}

/// Makes the capacity at least the number of pairs plus `more`. It makes it no greater than needed. None of the next
/// `more` insertions can then run out of memory. Returns 1 if there is no memory.
#[unsafe(no_mangle)]
pub extern "C" fn jetukoma_u64_u64_reserve_unchecked(
    alloc: Global,
    handle: &mut Handle,
    more: usize,
) -> u32
    ensures { Changes u64_u64 handle.old.table.value result handle.new.table.value
        (λ old new. Reserves old more result new) }
{
    let call = NumbersChange::Reserve(more);
    handle.change_numbers(alloc, call, &mut NOTHING, &mut NO_PAIR, &mut 0)
}

/// Lowers a capacity above `least` to `least`, or to the number of pairs if that is more. It frees the memory that this
/// spares. The time grows with the capacity. Returns 1 if there is no memory for the smaller table.
#[unsafe(no_mangle)]
pub extern "C" fn jetukoma_u64_u64_shrink_to_unchecked(
    alloc: Global,
    handle: &mut Handle,
    least: usize,
) -> u32
    ensures { Changes u64_u64 handle.old.table.value result handle.new.table.value
        (λ old new. Shrinks old least result new) }
{
    let call = NumbersChange::ShrinkTo(least);
    handle.change_numbers(alloc, call, &mut NOTHING, &mut NO_PAIR, &mut 0)
}

/// Inserts a pair, and writes the pairs that it overwrote. It allocates only if it overwrites none and there is no
/// spare capacity. Returns 1 if there is no memory.
#[unsafe(no_mangle)]
pub extern "C" fn jetukoma_u64_u64_insert_unchecked(
    alloc: Global,
    handle: &mut Handle,
    left: u64,
    right: u64,
    overwritten: &mut Overwritten,
) -> u32
    ensures change { Changes u64_u64 handle.old.table.value result handle.new.table.value
        (λ old new. Inserts old result new (left, right) overwritten.new) }
    ensures out { IsWritten result overwritten.old overwritten.new }
{
    let call = NumbersChange::Insert(left, right);
    handle.change_numbers(alloc, call, overwritten, &mut NO_PAIR, &mut 0)
}

/// Inserts a pair if neither value is contained. Returns 1 if there is no memory, and 3 if a value is contained.
#[unsafe(no_mangle)]
pub extern "C" fn jetukoma_u64_u64_insert_no_overwrite_unchecked(
    alloc: Global,
    handle: &mut Handle,
    left: u64,
    right: u64,
) -> u32
    ensures { Changes u64_u64 handle.old.table.value result handle.new.table.value
        (λ old new. InsertsNew old result new (left, right)) }
{
    let call = NumbersChange::InsertNoOverwrite(left, right);
    handle.change_numbers(alloc, call, &mut NOTHING, &mut NO_PAIR, &mut 0)
}

/// Inserts as `insert` does, under a policy of two flags. If the flag of a side is 1, a contained value of this side
/// refuses the insertion. If it is 0, the value is overwritten. Returns 1 if there is no memory. Returns 3 if the
/// insertion is refused or a flag is above 1.
#[unsafe(no_mangle)]
pub extern "C" fn jetukoma_u64_u64_insert_with_unchecked(
    alloc: Global,
    handle: &mut Handle,
    left: u64,
    right: u64,
    left_refuses: u8,
    right_refuses: u8,
    overwritten: &mut Overwritten,
) -> u32
    ensures change { Changes u64_u64 handle.old.table.value result handle.new.table.value
        (λ old new. InsertsFlagged old result new (left, right) left_refuses right_refuses
        overwritten.new) }
    ensures out { IsWritten result overwritten.old overwritten.new }
{
    let call = NumbersChange::InsertWith(left, right, left_refuses, right_refuses);
    handle.change_numbers(alloc, call, overwritten, &mut NO_PAIR, &mut 0)
}

/// Inserts pairs in order, each as `insert` does, and writes to `taken` how many were inserted. Returns 1 if there is
/// no memory for the next pair. The pairs before it stay, and `taken` is written then too.
#[unsafe(no_mangle)]
pub extern "C" fn jetukoma_u64_u64_insert_many_unchecked(
    alloc: Global,
    handle: &mut Handle,
    pairs: &[Pair],
    taken: &mut usize,
) -> u32
    ensures change { Changes u64_u64 handle.old.table.value result handle.new.table.value
        (λ old new. InsertsMany old result new pairs.now taken.new) }
    ensures out { result ≡ 2 → taken.new ≡ taken.old }
{
    let call = NumbersChange::InsertMany(pairs);
    handle.change_numbers(alloc, call, &mut NOTHING, &mut NO_PAIR, taken)
}

/// Writes the right of a left. Returns 5 if the left is not contained.
#[unsafe(no_mangle)]
pub extern "C" fn jetukoma_u64_u64_get_by_left_unchecked(
    alloc: Global,
    handle: &mut Handle,
    left: u64,
    right: &mut u64,
) -> u32
    ensures answer { Reads u64_u64 handle.old.table.value result handle.new.table.value
        (λ held. GetsByLeft held result left right.new) }
    ensures out { IsWritten result right.old right.new }
{
    handle.read_numbers(alloc, NumbersReading::GetByLeft(left), &mut 0, right)
}

/// Writes the left of a right. Returns 5 if the right is not contained.
#[unsafe(no_mangle)]
pub extern "C" fn jetukoma_u64_u64_get_by_right_unchecked(
    alloc: Global,
    handle: &mut Handle,
    right: u64,
    left: &mut u64,
) -> u32
    ensures answer { Reads u64_u64 handle.old.table.value result handle.new.table.value
        (λ held. GetsByRight held result right left.new) }
    ensures out { IsWritten result left.old left.new }
{
    handle.read_numbers(alloc, NumbersReading::GetByRight(right), &mut 0, left)
}

/// Returns 0 if the left is contained, and 5 if it is not.
#[unsafe(no_mangle)]
pub extern "C" fn jetukoma_u64_u64_contains_left_unchecked(
    alloc: Global,
    handle: &mut Handle,
    left: u64,
) -> u32
    ensures answer { Reads u64_u64 handle.old.table.value result handle.new.table.value
        (λ held. Tests (HasLeft nat_eq (Contains held.pairs) left) result) }
{
    handle.read_numbers(alloc, NumbersReading::ContainsLeft(left), &mut 0, &mut 0)
}

/// Returns 0 if the right is contained, and 5 if it is not.
#[unsafe(no_mangle)]
pub extern "C" fn jetukoma_u64_u64_contains_right_unchecked(
    alloc: Global,
    handle: &mut Handle,
    right: u64,
) -> u32
    ensures answer { Reads u64_u64 handle.old.table.value result handle.new.table.value
        (λ held. Tests (HasRight nat_eq (Contains held.pairs) right) result) }
{
    handle.read_numbers(alloc, NumbersReading::ContainsRight(right), &mut 0, &mut 0)
}

/// Removes the pair of a left, and writes it. Returns 5 if the left is not contained.
#[unsafe(no_mangle)]
pub extern "C" fn jetukoma_u64_u64_remove_by_left_unchecked(
    alloc: Global,
    handle: &mut Handle,
    left: u64,
    pair: &mut Pair,
) -> u32
    ensures change { Changes u64_u64 handle.old.table.value result handle.new.table.value
        (λ old new. RemovesByLeft old result new left pair.new) }
    ensures out { IsWritten result pair.old pair.new }
{
    let call = NumbersChange::RemoveByLeft(left);
    handle.change_numbers(alloc, call, &mut NOTHING, pair, &mut 0)
}

/// Removes the pair of a right, and writes it. Returns 5 if the right is not contained.
#[unsafe(no_mangle)]
pub extern "C" fn jetukoma_u64_u64_remove_by_right_unchecked(
    alloc: Global,
    handle: &mut Handle,
    right: u64,
    pair: &mut Pair,
) -> u32
    ensures change { Changes u64_u64 handle.old.table.value result handle.new.table.value
        (λ old new. RemovesByRight old result new right pair.new) }
    ensures out { IsWritten result pair.old pair.new }
{
    let call = NumbersChange::RemoveByRight(right);
    handle.change_numbers(alloc, call, &mut NOTHING, pair, &mut 0)
}

/// Removes all pairs. The capacity does not change. The time grows with the capacity.
#[unsafe(no_mangle)]
pub extern "C" fn jetukoma_u64_u64_clear_unchecked(alloc: Global, handle: &mut Handle) -> u32
    ensures { Changes u64_u64 handle.old.table.value result handle.new.table.value
        (λ old new. Clears old result new) }
{
    let call = NumbersChange::Clear;
    handle.change_numbers(alloc, call, &mut NOTHING, &mut NO_PAIR, &mut 0)
}
