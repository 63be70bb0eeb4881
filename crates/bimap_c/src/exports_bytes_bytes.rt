//! The functions for C of a table of two byte strings.
ghost use Rattle.std.specs.Prelude.{◌≡◌, ◌+◌, Option, [], length, option_map, slice_get, Contains};
ghost use Rattle.std.specs.Borrow.{Bor};
ghost use Rattle.bimap.specs.Holding.{IsFoundByLeft, IsFoundByRight};
ghost use Rattle.bimap.specs.Sets.{HasLeft, HasRight};
ghost use Rattle.bimap_c.specs.Bytes.{same_bytes, has_bytes, named_pairs, AreBytesOut, RemovesByLeft, RemovesByRight, ClearsAll, Inserts, InsertsFlagged, IsKind, IsLengthWritten};
ghost use Rattle.bimap_c.specs.BytesBytes.{WithCopy};
ghost use Rattle.bimap_c.specs.Calls.{IsWritten, Reads, Changes, Makes, Frees, Tests, Reserves, Shrinks};
ghost use Rattle.bimap_c.specs.declared.byte_string.ByteString.{ByteString};
ghost use Rattle.bimap_c.specs.Packed.{bytes_of, bytes_row};
ghost use Rattle.bimap_c.specs.Tables.{bytes_bytes, bytes_bytes_builders, AreSeeded};
ghost use Rattle.bimap_c.specs.Unpacked.{InsertsMany};

use crate::bytes::{self, left_at, right_at, tell_bytes};
use crate::bytes_bytes::Row;
use crate::bytes_calls::{BytesChange, BytesReading};
use crate::c_table::CTable;
use crate::calls::{OVERWRITE_BOTH, REFUSE_BOTH};
use crate::handle::Handle;
use crate::status::REFUSED;
use bimap::{OnHeld, Overwritten};
use bimap_index::By;
use std::alloc::Global;

/// Makes an empty table of capacity 0 for a handle that has no table. The kind is one of the numbers above. The hashes
/// of both sides depend on the seed. An ordered table does not use the seed. The call takes constant time. Returns 1 if
/// there is no memory, 2 if the handle has a table, and 3 if there is no such kind.
#[unsafe(no_mangle)]
pub extern "C" fn jetukoma_bytes_bytes_new_unchecked(
    alloc: Global,
    handle: &mut Handle,
    kind: u32,
    seed: u64,
) -> u32
    ensures made { Makes bytes_bytes handle.old.table.value result handle.new.table.value kind
        (λ kept. (kept.held.pairs ≡ []) × (kept.held.room ≡ 0)
        × (kept.struck ≡ Overwritten.Neither)) }
    ensures seeded { Makes bytes_bytes_builders handle.old.table.value result
        handle.new.table.value kind (AreSeeded seed) }
{
    match bytes::new_table(alloc, kind, seed) {
        Some(table) => handle.make(alloc, CTable::BytesBytes(table)),
        None => REFUSED,
    }
}

/// Frees the table and all its bytes. The handle has no table then. The time grows with the capacity. Returns 2 if
/// the handle has no table.
#[unsafe(no_mangle)]
pub extern "C" fn jetukoma_bytes_bytes_free_unchecked(alloc: Global, handle: &mut Handle) -> u32
    ensures { Frees handle.old.table.value result handle.new.table.value }
{
    handle.free(alloc)
}

/// Writes the number of pairs. It takes constant time.
#[unsafe(no_mangle)]
pub extern "C" fn jetukoma_bytes_bytes_len_unchecked(
    alloc: Global,
    handle: &mut Handle,
    len: &mut usize,
) -> u32
    ensures answer { Reads bytes_bytes handle.old.table.value result handle.new.table.value
        (λ kept. (result ≡ 0) × (len.new ≡ length kept.held.pairs)) }
    ensures out { IsWritten result len.old len.new }
{
    handle.read_bytes_bytes(alloc, BytesReading::Len, len, &mut [], &mut 0)
}

/// Writes the capacity, which is the number of pairs for which there is memory. It takes constant time.
#[unsafe(no_mangle)]
pub extern "C" fn jetukoma_bytes_bytes_capacity_unchecked(
    alloc: Global,
    handle: &mut Handle,
    capacity: &mut usize,
) -> u32
    ensures answer { Reads bytes_bytes handle.old.table.value result handle.new.table.value
        (λ kept. (result ≡ 0) × (capacity.new ≡ kept.held.room)) }
    ensures out { IsWritten result capacity.old capacity.new }
{
    handle.read_bytes_bytes(alloc, BytesReading::Capacity, capacity, &mut [], &mut 0)
}

/// Makes the capacity at least the number of pairs plus `more`. It makes it no greater than needed. Each of the next
/// `more` insertions then allocates only for its bytes. Returns 1 if there is no memory.
#[unsafe(no_mangle)]
pub extern "C" fn jetukoma_bytes_bytes_reserve_unchecked(
    alloc: Global,
    handle: &mut Handle,
    more: usize,
) -> u32
    ensures { Changes bytes_bytes handle.old.table.value result handle.new.table.value
        (λ old new. Reserves old.held more result new.held × (new.struck ≡ old.struck)) }
{
    handle.change_bytes_bytes(alloc, BytesChange::Reserve(more), &mut 0, &mut 0)
}

/// Lowers a capacity above `least` to `least`, or to the number of pairs if that is more. It frees the memory that this
/// spares. The time grows with the capacity. Returns 1 if there is no memory for the smaller table.
#[unsafe(no_mangle)]
pub extern "C" fn jetukoma_bytes_bytes_shrink_to_unchecked(
    alloc: Global,
    handle: &mut Handle,
    least: usize,
) -> u32
    ensures { Changes bytes_bytes handle.old.table.value result handle.new.table.value
        (λ old new. Shrinks old.held least result new.held × (new.struck ≡ old.struck)) }
{
    handle.change_bytes_bytes(alloc, BytesChange::ShrinkTo(least), &mut 0, &mut 0)
}

/// Inserts copies of the left and the right. They overwrite the pairs with which they share a value. `kind` says
/// which pairs those are: 0 for none, 1 for the pair of the left alone, 2 for the pair of the right alone, 3 for one
/// pair with both values, and 4 for the pair of the left and the pair of the right. The table keeps the overwritten
/// pairs until the next insertion, removal or clear that is done. `overwritten_left` and `overwritten_right` copy
/// them. The call allocates for the bytes. It allocates for the pair only if it overwrites none and there is no spare
/// capacity. Returns 1 if there is no memory.
#[unsafe(no_mangle)]
pub extern "C" fn jetukoma_bytes_bytes_insert_unchecked(
    alloc: Global,
    handle: &mut Handle,
    left: &[u8],
    right: &[u8],
    kind: &mut u32,
) -> u32
    ensures change { Changes bytes_bytes handle.old.table.value result handle.new.table.value
        (λ old new. WithCopy old right.now result new (λ copy. Inserts same_bytes old left.now copy
        (record { left = OnHeld.Overwrite; right = OnHeld.Overwrite }) result new)
        × IsKind result kind.new new) }
    ensures out { IsWritten result kind.old kind.new }
{
    let call = BytesChange::Insert(left, right, OVERWRITE_BOTH);
    handle.change_bytes_bytes(alloc, call, &mut 0, kind)
}

/// Inserts copies of the left and the right if neither is contained. The table keeps no overwritten pair then.
/// Returns 1 if there is no memory, and 3 if a value is contained.
#[unsafe(no_mangle)]
pub extern "C" fn jetukoma_bytes_bytes_insert_no_overwrite_unchecked(
    alloc: Global,
    handle: &mut Handle,
    left: &[u8],
    right: &[u8],
) -> u32
    ensures { Changes bytes_bytes handle.old.table.value result handle.new.table.value
        (λ old new. WithCopy old right.now result new (λ copy. Inserts same_bytes old left.now copy
        (record { left = OnHeld.Refuse; right = OnHeld.Refuse }) result new)) }
{
    let call = BytesChange::Insert(left, right, REFUSE_BOTH);
    handle.change_bytes_bytes(alloc, call, &mut 0, &mut 0)
}

/// Inserts as `insert` does, under a policy of two flags. If the flag of a side is 1, a contained value of this side
/// refuses the insertion. If it is 0, the value is overwritten. Returns 1 if there is no memory. Returns 3 if the
/// insertion is refused or a flag is above 1.
#[unsafe(no_mangle)]
pub extern "C" fn jetukoma_bytes_bytes_insert_with_unchecked(
    alloc: Global,
    handle: &mut Handle,
    left: &[u8],
    right: &[u8],
    left_refuses: u8,
    right_refuses: u8,
    kind: &mut u32,
) -> u32
    ensures change { Changes bytes_bytes handle.old.table.value result handle.new.table.value
        (λ old new. WithCopy old right.now result new (λ copy. InsertsFlagged same_bytes old
        left.now copy left_refuses right_refuses result new) × IsKind result kind.new new) }
    ensures out { IsWritten result kind.old kind.new }
{
    let call = BytesChange::InsertWith(left, right, left_refuses, right_refuses);
    handle.change_bytes_bytes(alloc, call, &mut 0, kind)
}

/// Inserts pairs in order, each as `insert` does. The rows and the bytes are as `fill` writes them: `bytes` has the bytes
/// of the pairs, one pair behind another. `taken` gets the number of inserted pairs. Returns 1 if there is no memory
/// for the next pair. The pairs before it stay, and `taken` is written then too. Returns 3 if the rows name more bytes
/// than there are, and nothing has changed then.
#[unsafe(no_mangle)]
pub extern "C" fn jetukoma_bytes_bytes_insert_many_unchecked(
    alloc: Global,
    handle: &mut Handle,
    bytes: &[u8],
    rows: &[Row],
    taken: &mut usize,
) -> u32
    ensures change { Changes bytes_bytes handle.old.table.value result handle.new.table.value
        (λ old new. InsertsMany same_bytes bytes_row (bytes_of (λ right. right.bytes.items))
        (λ row. row.left_len + row.right_len) old rows.now bytes.now result new taken.new) }
    ensures out { (result ≡ 0 → ⊥) → (result ≡ 1 → ⊥) → taken.new ≡ taken.old }
{
    handle.change_bytes_bytes(alloc, BytesChange::InsertMany(bytes, rows), taken, &mut 0)
}

/// Writes the right of a left to the front of a buffer, and its length. Returns 4 if the buffer is too short, and 5 if
/// the left is not contained. On 4 it has written the length alone.
#[unsafe(no_mangle)]
pub extern "C" fn jetukoma_bytes_bytes_get_by_left_unchecked(
    alloc: Global,
    handle: &mut Handle,
    left: &[u8],
    buf: &mut [u8],
    len: &mut usize,
) -> u32
    ensures answer { Reads bytes_bytes handle.old.table.value result handle.new.table.value
        (λ kept. (found : Option (Bor ByteString))
        × IsFoundByLeft has_bytes kept.held left.now found
        × AreBytesOut (option_map (λ right. right.now.bytes.items) found) result buf.old buf.new
        len.new) }
    ensures buf { IsWritten result buf.old buf.new }
    ensures len { IsLengthWritten result len.old len.new }
{
    handle.read_bytes_bytes(alloc, BytesReading::GetByLeft(left), &mut 0, buf, len)
}

/// Writes the left of a right to the front of a buffer, and its length. Returns 4 if the buffer is too short, and 5 if
/// the right is not contained. On 4 it has written the length alone.
#[unsafe(no_mangle)]
pub extern "C" fn jetukoma_bytes_bytes_get_by_right_unchecked(
    alloc: Global,
    handle: &mut Handle,
    right: &[u8],
    buf: &mut [u8],
    len: &mut usize,
) -> u32
    ensures answer { Reads bytes_bytes handle.old.table.value result handle.new.table.value
        (λ kept. (found : Option (Bor ByteString))
        × IsFoundByRight has_bytes kept.held right.now found
        × AreBytesOut (option_map (λ left. left.now.bytes.items) found) result buf.old buf.new
        len.new) }
    ensures buf { IsWritten result buf.old buf.new }
    ensures len { IsLengthWritten result len.old len.new }
{
    handle.read_bytes_bytes(alloc, BytesReading::GetByRight(By(right)), &mut 0, buf, len)
}

/// Returns 0 if the left is contained, and 5 if it is not.
#[unsafe(no_mangle)]
pub extern "C" fn jetukoma_bytes_bytes_contains_left_unchecked(
    alloc: Global,
    handle: &mut Handle,
    left: &[u8],
) -> u32
    ensures { Reads bytes_bytes handle.old.table.value result handle.new.table.value
        (λ kept. Tests (HasLeft has_bytes (Contains kept.held.pairs) left.now) result) }
{
    let call = BytesReading::ContainsLeft(left);
    handle.read_bytes_bytes(alloc, call, &mut 0, &mut [], &mut 0)
}

/// Returns 0 if the right is contained, and 5 if it is not.
#[unsafe(no_mangle)]
pub extern "C" fn jetukoma_bytes_bytes_contains_right_unchecked(
    alloc: Global,
    handle: &mut Handle,
    right: &[u8],
) -> u32
    ensures { Reads bytes_bytes handle.old.table.value result handle.new.table.value
        (λ kept. Tests (HasRight has_bytes (Contains kept.held.pairs) right.now) result) }
{
    let call = BytesReading::ContainsRight(By(right));
    handle.read_bytes_bytes(alloc, call, &mut 0, &mut [], &mut 0)
}

/// Removes the pair of a left. The table keeps the pair, so that `overwritten_left` and `overwritten_right` copy it.
/// Returns 5 if the left is not contained.
#[unsafe(no_mangle)]
pub extern "C" fn jetukoma_bytes_bytes_remove_by_left_unchecked(
    alloc: Global,
    handle: &mut Handle,
    left: &[u8],
) -> u32
    ensures { Changes bytes_bytes handle.old.table.value result handle.new.table.value
        (λ old new. RemovesByLeft has_bytes old left.now result new) }
{
    handle.change_bytes_bytes(alloc, BytesChange::RemoveByLeft(left), &mut 0, &mut 0)
}

/// Removes the pair of a right. The table keeps the pair, so that `overwritten_left` and `overwritten_right` copy it.
/// Returns 5 if the right is not contained.
#[unsafe(no_mangle)]
pub extern "C" fn jetukoma_bytes_bytes_remove_by_right_unchecked(
    alloc: Global,
    handle: &mut Handle,
    right: &[u8],
) -> u32
    ensures { Changes bytes_bytes handle.old.table.value result handle.new.table.value
        (λ old new. RemovesByRight has_bytes old right.now result new) }
{
    handle.change_bytes_bytes(alloc, BytesChange::RemoveByRight(By(right)), &mut 0, &mut 0)
}

/// Writes the left of a pair that the last change overwrote or removed to the front of a buffer, and its length. If
/// the change was an insertion that overwrote two pairs, index 0 is the pair of the left, and index 1 is the pair of
/// the right. Otherwise index 0 is the pair. Returns 4 if the buffer is too short, and 5 if there is no such pair. On
/// 4 it has written the length alone.
#[unsafe(no_mangle)]
pub extern "C" fn jetukoma_bytes_bytes_overwritten_left_unchecked(
    alloc: Global,
    handle: &mut Handle,
    index: usize,
    buf: &mut [u8],
    len: &mut usize,
) -> u32
    ensures answer { Reads bytes_bytes handle.old.table.value result handle.new.table.value
        (λ kept. AreBytesOut (option_map (λ p. p.0.bytes.items)
        (slice_get (named_pairs kept.struck) index)) result buf.old buf.new len.new) }
    ensures buf { IsWritten result buf.old buf.new }
    ensures len { IsLengthWritten result len.old len.new }
{
    on_table!(handle, alloc, BytesBytes, table => tell_bytes(left_at(&table.struck, index), buf, len))
}

/// Writes the right of a pair that the last change overwrote or removed to the front of a buffer, and its length. The
/// index and the statuses are those of `overwritten_left`.
#[unsafe(no_mangle)]
pub extern "C" fn jetukoma_bytes_bytes_overwritten_right_unchecked(
    alloc: Global,
    handle: &mut Handle,
    index: usize,
    buf: &mut [u8],
    len: &mut usize,
) -> u32
    ensures answer { Reads bytes_bytes handle.old.table.value result handle.new.table.value
        (λ kept. AreBytesOut (option_map (λ p. p.1.bytes.items)
        (slice_get (named_pairs kept.struck) index)) result buf.old buf.new len.new) }
    ensures buf { IsWritten result buf.old buf.new }
    ensures len { IsLengthWritten result len.old len.new }
{
    on_table!(handle, alloc, BytesBytes, table => tell_bytes(right_at(&table.struck, index), buf, len))
}

/// Removes all pairs. The capacity does not change. The time grows with the capacity. The table keeps no overwritten
/// pair then.
#[unsafe(no_mangle)]
pub extern "C" fn jetukoma_bytes_bytes_clear_unchecked(alloc: Global, handle: &mut Handle) -> u32
    ensures { Changes bytes_bytes handle.old.table.value result handle.new.table.value
        (λ old new. ClearsAll old result new) }
{
    handle.change_bytes_bytes(alloc, BytesChange::Clear, &mut 0, &mut 0)
}
