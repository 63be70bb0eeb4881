//! The functions for C of a table of byte strings and numbers.
ghost use Rattle.std.specs.Prelude.{◌≡◌, ℕ, Option, [], length, nat_eq, option_map, slice_get, Contains};
ghost use Rattle.std.specs.Borrow.{Bor};
ghost use Rattle.std.specs.Map.Iter.{deref};
ghost use Rattle.bimap.specs.Holding.{IsFoundByLeft, IsFoundByRight};
ghost use Rattle.bimap.specs.Sets.{HasLeft, HasRight};
ghost use Rattle.bimap_c.specs.Bytes.{has_bytes, named_pairs, AreBytesOut, RemovesByLeft, RemovesByRight, ClearsAll, Inserts, InsertsFlagged, IsKind, IsLengthWritten};
ghost use Rattle.bimap_c.specs.Calls.{IsWritten, Reads, Changes, Makes, Frees, Tells, Tests, Reserves, Shrinks};
ghost use Rattle.bimap_c.specs.declared.byte_string.ByteString.{ByteString};
ghost use Rattle.bimap_c.specs.Json.{WritesTexts, ReadsJson};
ghost use Rattle.bimap_c.specs.Packed.{bytes_of, u64_row};
ghost use Rattle.bimap_c.specs.Tables.{bytes_u64, bytes_u64_builders, AreSeeded};
ghost use Rattle.bimap_c.specs.Unpacked.{InsertsMany};

use crate::bytes::{left_at, right_at, tell_bytes};
use crate::bytes_calls::{BytesChange, BytesReading};
use crate::bytes_u64::Row;
use crate::c_table::CTable;
use crate::calls::{OVERWRITE_BOTH, REFUSE_BOTH};
use crate::handle::Handle;
use crate::status::REFUSED;
use crate::u64_u64::tell_value;
use crate::{bytes, json};
use bimap::{BiBTreeMap, BiHashMap, BiInsertionOrderMap, OnHeld, Overwritten, Seeded};
use std::alloc::Global;

/// Makes an empty table of capacity 0 for a handle that has no table. The kind is one of the numbers above. The hashes
/// of both sides depend on the seed. An ordered table does not use the seed. The call takes constant time. Returns 1 if
/// there is no memory, 2 if the handle has a table, and 3 if there is no such kind.
#[unsafe(no_mangle)]
pub extern "C" fn jetukoma_bytes_u64_new_unchecked(
    alloc: Global,
    handle: &mut Handle,
    kind: u32,
    seed: u64,
) -> u32
    ensures made { Makes bytes_u64 handle.old.table.value result handle.new.table.value kind
        (λ kept. (kept.held.pairs ≡ []) × (kept.held.room ≡ 0)
        × (kept.struck ≡ Overwritten.Neither)) }
    ensures seeded { Makes bytes_u64_builders handle.old.table.value result
        handle.new.table.value kind (AreSeeded seed) }
{
    match bytes::new_table(alloc, kind, seed) {
        Some(table) => handle.make(alloc, CTable::BytesU64(table)),
        None => REFUSED,
    }
}

/// Frees the table and all its bytes. The handle has no table then. The time grows with the capacity. Returns 2 if
/// the handle has no table.
#[unsafe(no_mangle)]
pub extern "C" fn jetukoma_bytes_u64_free_unchecked(alloc: Global, handle: &mut Handle) -> u32
    ensures { Frees handle.old.table.value result handle.new.table.value }
{
    handle.free(alloc)
}

/// Writes the number of pairs. It takes constant time.
#[unsafe(no_mangle)]
pub extern "C" fn jetukoma_bytes_u64_len_unchecked(
    alloc: Global,
    handle: &mut Handle,
    len: &mut usize,
) -> u32
    ensures answer { Reads bytes_u64 handle.old.table.value result handle.new.table.value
        (λ kept. (result ≡ 0) × (len.new ≡ length kept.held.pairs)) }
    ensures out { IsWritten result len.old len.new }
{
    handle.read_bytes_u64(alloc, BytesReading::Len, len, &mut 0, &mut [], &mut 0)
}

/// Writes the capacity, which is the number of pairs for which there is memory. It takes constant time.
#[unsafe(no_mangle)]
pub extern "C" fn jetukoma_bytes_u64_capacity_unchecked(
    alloc: Global,
    handle: &mut Handle,
    capacity: &mut usize,
) -> u32
    ensures answer { Reads bytes_u64 handle.old.table.value result handle.new.table.value
        (λ kept. (result ≡ 0) × (capacity.new ≡ kept.held.room)) }
    ensures out { IsWritten result capacity.old capacity.new }
{
    handle.read_bytes_u64(
        alloc,
        BytesReading::Capacity,
        capacity,
        &mut 0,
        &mut [],
        &mut 0,
    )
}

/// Makes the capacity at least the number of pairs plus `more`. It makes it no greater than needed. Each of the next
/// `more` insertions then allocates only for its bytes. Returns 1 if there is no memory.
#[unsafe(no_mangle)]
pub extern "C" fn jetukoma_bytes_u64_reserve_unchecked(
    alloc: Global,
    handle: &mut Handle,
    more: usize,
) -> u32
    ensures { Changes bytes_u64 handle.old.table.value result handle.new.table.value
        (λ old new. Reserves old.held more result new.held × (new.struck ≡ old.struck)) }
{
    handle.change_bytes_u64(alloc, BytesChange::Reserve(more), &mut 0, &mut 0)
}

/// Lowers a capacity above `least` to `least`, or to the number of pairs if that is more. It frees the memory that this
/// spares. The time grows with the capacity. Returns 1 if there is no memory for the smaller table.
#[unsafe(no_mangle)]
pub extern "C" fn jetukoma_bytes_u64_shrink_to_unchecked(
    alloc: Global,
    handle: &mut Handle,
    least: usize,
) -> u32
    ensures { Changes bytes_u64 handle.old.table.value result handle.new.table.value
        (λ old new. Shrinks old.held least result new.held × (new.struck ≡ old.struck)) }
{
    handle.change_bytes_u64(alloc, BytesChange::ShrinkTo(least), &mut 0, &mut 0)
}

/// Inserts a copy of the left with the right. They overwrite the pairs with which they share a value. `kind` says
/// which pairs those are: 0 for none, 1 for the pair of the left alone, 2 for the pair of the right alone, 3 for one
/// pair with both values, and 4 for the pair of the left and the pair of the right. The table keeps the overwritten
/// pairs until the next insertion, removal or clear that is done. `overwritten_left` and `overwritten_right` copy
/// them. The call allocates for the bytes. It allocates for the pair only if it overwrites none and there is no spare
/// capacity. Returns 1 if there is no memory.
#[unsafe(no_mangle)]
pub extern "C" fn jetukoma_bytes_u64_insert_unchecked(
    alloc: Global,
    handle: &mut Handle,
    left: &[u8],
    right: u64,
    kind: &mut u32,
) -> u32
    ensures change { Changes bytes_u64 handle.old.table.value result handle.new.table.value
        (λ old new. Inserts nat_eq old left.now right
        (record { left = OnHeld.Overwrite; right = OnHeld.Overwrite }) result new
        × IsKind result kind.new new) }
    ensures out { IsWritten result kind.old kind.new }
{
    let call = BytesChange::Insert(left, right, OVERWRITE_BOTH);
    handle.change_bytes_u64(alloc, call, &mut 0, kind)
}

/// Inserts a copy of the left with the right if neither is contained. The table keeps no overwritten pair then.
/// Returns 1 if there is no memory, and 3 if a value is contained.
#[unsafe(no_mangle)]
pub extern "C" fn jetukoma_bytes_u64_insert_no_overwrite_unchecked(
    alloc: Global,
    handle: &mut Handle,
    left: &[u8],
    right: u64,
) -> u32
    ensures { Changes bytes_u64 handle.old.table.value result handle.new.table.value
        (λ old new. Inserts nat_eq old left.now right
        (record { left = OnHeld.Refuse; right = OnHeld.Refuse }) result new) }
{
    let call = BytesChange::Insert(left, right, REFUSE_BOTH);
    handle.change_bytes_u64(alloc, call, &mut 0, &mut 0)
}

/// Inserts as `insert` does, under a policy of two flags. If the flag of a side is 1, a contained value of this side
/// refuses the insertion. If it is 0, the value is overwritten. Returns 1 if there is no memory. Returns 3 if the
/// insertion is refused or a flag is above 1.
#[unsafe(no_mangle)]
pub extern "C" fn jetukoma_bytes_u64_insert_with_unchecked(
    alloc: Global,
    handle: &mut Handle,
    left: &[u8],
    right: u64,
    left_refuses: u8,
    right_refuses: u8,
    kind: &mut u32,
) -> u32
    ensures change { Changes bytes_u64 handle.old.table.value result handle.new.table.value
        (λ old new. InsertsFlagged nat_eq old left.now right left_refuses right_refuses result new
        × IsKind result kind.new new) }
    ensures out { IsWritten result kind.old kind.new }
{
    let call = BytesChange::InsertWith(left, right, left_refuses, right_refuses);
    handle.change_bytes_u64(alloc, call, &mut 0, kind)
}

/// Inserts pairs in order, each as `insert` does. The rows and the bytes are as `fill` writes them: `bytes` has the bytes
/// of the pairs, one pair behind another. `taken` gets the number of inserted pairs. Returns 1 if there is no memory
/// for the next pair. The pairs before it stay, and `taken` is written then too. Returns 3 if the rows name more bytes
/// than there are, and nothing has changed then.
#[unsafe(no_mangle)]
pub extern "C" fn jetukoma_bytes_u64_insert_many_unchecked(
    alloc: Global,
    handle: &mut Handle,
    bytes: &[u8],
    rows: &[Row],
    taken: &mut usize,
) -> u32
    ensures change { Changes bytes_u64 handle.old.table.value result handle.new.table.value
        (λ old new. InsertsMany nat_eq u64_row (bytes_of (λ _. [])) (λ row. row.left_len) old
        rows.now bytes.now result new taken.new) }
    ensures out { (result ≡ 0 → ⊥) → (result ≡ 1 → ⊥) → taken.new ≡ taken.old }
{
    handle.change_bytes_u64(alloc, BytesChange::InsertMany(bytes, rows), taken, &mut 0)
}

/// Writes the right of a left. Returns 5 if the left is not contained.
#[unsafe(no_mangle)]
pub extern "C" fn jetukoma_bytes_u64_get_by_left_unchecked(
    alloc: Global,
    handle: &mut Handle,
    left: &[u8],
    right: &mut u64,
) -> u32
    ensures answer { Reads bytes_u64 handle.old.table.value result handle.new.table.value
        (λ kept. (found : Option (Bor ℕ)) × IsFoundByLeft has_bytes kept.held left.now found
        × Tells (option_map deref found) result right.new) }
    ensures out { IsWritten result right.old right.new }
{
    let call = BytesReading::GetByLeft(left);
    handle.read_bytes_u64(alloc, call, &mut 0, right, &mut [], &mut 0)
}

/// Writes the left of a right to the front of a buffer, and its length. Returns 4 if the buffer is too short, and 5
/// if the right is not contained. On 4 it has written the length alone.
#[unsafe(no_mangle)]
pub extern "C" fn jetukoma_bytes_u64_get_by_right_unchecked(
    alloc: Global,
    handle: &mut Handle,
    right: u64,
    buf: &mut [u8],
    len: &mut usize,
) -> u32
    ensures answer { Reads bytes_u64 handle.old.table.value result handle.new.table.value
        (λ kept. (found : Option (Bor ByteString)) × IsFoundByRight nat_eq kept.held right found
        × AreBytesOut (option_map (λ left. left.now.bytes.items) found) result buf.old buf.new
        len.new) }
    ensures buf { IsWritten result buf.old buf.new }
    ensures len { IsLengthWritten result len.old len.new }
{
    handle.read_bytes_u64(
        alloc,
        BytesReading::GetByRight(&right),
        &mut 0,
        &mut 0,
        buf,
        len,
    )
}

/// Returns 0 if the left is contained, and 5 if it is not.
#[unsafe(no_mangle)]
pub extern "C" fn jetukoma_bytes_u64_contains_left_unchecked(
    alloc: Global,
    handle: &mut Handle,
    left: &[u8],
) -> u32
    ensures { Reads bytes_u64 handle.old.table.value result handle.new.table.value
        (λ kept. Tests (HasLeft has_bytes (Contains kept.held.pairs) left.now) result) }
{
    let call = BytesReading::ContainsLeft(left);
    handle.read_bytes_u64(alloc, call, &mut 0, &mut 0, &mut [], &mut 0)
}

/// Returns 0 if the right is contained, and 5 if it is not.
#[unsafe(no_mangle)]
pub extern "C" fn jetukoma_bytes_u64_contains_right_unchecked(
    alloc: Global,
    handle: &mut Handle,
    right: u64,
) -> u32
    ensures answer { Reads bytes_u64 handle.old.table.value result handle.new.table.value
        (λ kept. Tests (HasRight nat_eq (Contains kept.held.pairs) right) result) }
{
    let call = BytesReading::ContainsRight(&right);
    handle.read_bytes_u64(alloc, call, &mut 0, &mut 0, &mut [], &mut 0)
}

/// Removes the pair of a left. The table keeps the pair, so that `overwritten_left` and `overwritten_right` copy it.
/// Returns 5 if the left is not contained.
#[unsafe(no_mangle)]
pub extern "C" fn jetukoma_bytes_u64_remove_by_left_unchecked(
    alloc: Global,
    handle: &mut Handle,
    left: &[u8],
) -> u32
    ensures { Changes bytes_u64 handle.old.table.value result handle.new.table.value
        (λ old new. RemovesByLeft has_bytes old left.now result new) }
{
    handle.change_bytes_u64(alloc, BytesChange::RemoveByLeft(left), &mut 0, &mut 0)
}

/// Removes the pair of a right. The table keeps the pair, so that `overwritten_left` and `overwritten_right` copy it.
/// Returns 5 if the right is not contained.
#[unsafe(no_mangle)]
pub extern "C" fn jetukoma_bytes_u64_remove_by_right_unchecked(
    alloc: Global,
    handle: &mut Handle,
    right: u64,
) -> u32
    ensures { Changes bytes_u64 handle.old.table.value result handle.new.table.value
        (λ old new. RemovesByRight nat_eq old right result new) }
{
    handle.change_bytes_u64(alloc, BytesChange::RemoveByRight(&right), &mut 0, &mut 0)
}

/// Writes the left of a pair that the last change overwrote or removed to the front of a buffer, and its length. If
/// the change was an insertion that overwrote two pairs, index 0 is the pair of the left, and index 1 is the pair of
/// the right. Otherwise index 0 is the pair. Returns 4 if the buffer is too short, and 5 if there is no such pair. On
/// 4 it has written the length alone.
#[unsafe(no_mangle)]
pub extern "C" fn jetukoma_bytes_u64_overwritten_left_unchecked(
    alloc: Global,
    handle: &mut Handle,
    index: usize,
    buf: &mut [u8],
    len: &mut usize,
) -> u32
    ensures answer { Reads bytes_u64 handle.old.table.value result handle.new.table.value
        (λ kept. AreBytesOut (option_map (λ p. p.0.bytes.items)
        (slice_get (named_pairs kept.struck) index)) result buf.old buf.new len.new) }
    ensures buf { IsWritten result buf.old buf.new }
    ensures len { IsLengthWritten result len.old len.new }
{
    on_table!(handle, alloc, BytesU64, table => tell_bytes(left_at(&table.struck, index), buf, len))
}

/// Writes the right of a pair that the last change overwrote or removed. The index is that of `overwritten_left`.
/// Returns 5 if there is no such pair.
#[unsafe(no_mangle)]
pub extern "C" fn jetukoma_bytes_u64_overwritten_right_unchecked(
    alloc: Global,
    handle: &mut Handle,
    index: usize,
    right: &mut u64,
) -> u32
    ensures answer { Reads bytes_u64 handle.old.table.value result handle.new.table.value
        (λ kept. Tells (option_map (λ p. p.1)
        (slice_get (named_pairs kept.struck) index)) result right.new) }
    ensures out { IsWritten result right.old right.new }
{
    on_table!(handle, alloc, BytesU64, table => tell_value(right_at(&table.struck, index), right))
}

/// Removes all pairs. The capacity does not change. The time grows with the capacity. The table keeps no overwritten
/// pair then.
#[unsafe(no_mangle)]
pub extern "C" fn jetukoma_bytes_u64_clear_unchecked(alloc: Global, handle: &mut Handle) -> u32
    ensures { Changes bytes_u64 handle.old.table.value result handle.new.table.value
        (λ old new. ClearsAll old result new) }
{
    handle.change_bytes_u64(alloc, BytesChange::Clear, &mut 0, &mut 0)
}

/// Writes the pairs as the text of a JSON object to the front of a buffer, and its length. Each pair is a name and
/// its number. The names are in ascending order of their bytes. The call allocates for all pairs. Returns 1 if there
/// is no memory, 3 if a left is not UTF-8, and 4 if the buffer is too short. On 4 it has written the length alone.
#[unsafe(no_mangle)]
pub extern "C" fn jetukoma_bytes_u64_to_json_unchecked(
    alloc: Global,
    handle: &mut Handle,
    buf: &mut [u8],
    len: &mut usize,
) -> u32
    ensures answer { Reads bytes_u64 handle.old.table.value result handle.new.table.value
        (λ kept. WritesTexts kept.held.pairs result buf.old buf.new len.new) }
    ensures buf { IsWritten result buf.old buf.new }
    ensures len { IsLengthWritten result len.old len.new }
{
    on_table!(handle, alloc, BytesU64, table => json::to_json(alloc, &table.map, buf, len))
}

/// Reads the text of such an object. Its pairs replace those of the table, and the table keeps no overwritten pair
/// then. The kind and the seed stay. The pairs are inserted in ascending order of their names. The call allocates for
/// all pairs. Returns 1 if there is no memory. Returns 3 if the text is no such object, or if it has a name or a
/// number twice.
#[unsafe(no_mangle)]
pub extern "C" fn jetukoma_bytes_u64_from_json_unchecked(
    alloc: Global,
    handle: &mut Handle,
    text: &[u8],
) -> u32
    ensures { Changes bytes_u64 handle.old.table.value result handle.new.table.value
        (λ old new. ReadsJson old text.now result new) }
{
    on_table!(handle, alloc, BytesU64,
        Ordered(table) => json::from_json(alloc, table, BiBTreeMap::new(alloc), text),
        Hashed(table) => {
            let builder = Seeded::new(table.seed);
            json::from_json(alloc, table, BiHashMap::with_hashers(alloc, builder, builder), text)
        },
        InsertionOrder(table) => {
            let builder = Seeded::new(table.seed);
            json::from_json(alloc, table, BiInsertionOrderMap::with_hashers(alloc, builder, builder), text)
        })
}
