//! The functions for C of a table of two byte strings that use an order: iteration, ranks, ends and moves.
ghost use Rattle.std.specs.Prelude.{◌≡◌, drop, reverse, slice_get};
ghost use Rattle.bimap.specs.Moves.{ComesFirst};
ghost use Rattle.bimap.specs.Positions.{ComesLast};
ghost use Rattle.bimap_c.specs.Bytes.{PopsFirst, PopsLast, byte_order, has_bytes, to_bytes, IsLengthWritten};
ghost use Rattle.bimap_c.specs.BytesBytes.{AreBothOut};
ghost use Rattle.bimap_c.specs.Calls.{IsWritten, Reads, ReadsAtEnd, ReadsOrdered, ChangesAtEnd, ChangesInOrder, ByRight, IsRank, Moves};
ghost use Rattle.bimap_c.specs.Packed.{Packs, bytes_of, bytes_row};
ghost use Rattle.bimap_c.specs.Tables.{bytes_bytes};

use crate::by_right::fill_rows;
use crate::bytes::strike;
use crate::bytes_bytes::{Row, tell_pair};
use crate::calls::{found, left_rank, right_rank};
use crate::fill::{fill_back, fill_by_rank, fill_by_steps};
use crate::handle::Handle;
use bimap_index::By;
use std::alloc::Global;

/// Writes pairs to the front of `rows`, each as the number of bytes of its left, and that of its right. The bytes go to
/// the front of a buffer, one pair behind another, and the left of a pair before its right. The call leaves out the
/// first `start` pairs. It writes as many pairs as there are rows and as fit into the buffer. `filled` gets the number
/// of these pairs, and `len` that of their bytes. An ordered table has its pairs in ascending order of their lefts, and
/// a table in insertion order in that order. The order of a hashed table is not specified, and it stays the same until
/// the table changes. An ordered table takes one search, and at most one descent in the tree for each pair. A table of
/// another kind passes over the pairs that it leaves out. To read all its pairs, use many rows and a long buffer.
/// Returns 4 if there is a row, and the buffer is too short for the next pair. On 4 it has written the number of bytes
/// of this pair to `len` alone.
#[unsafe(no_mangle)]
pub extern "C" fn jetukoma_bytes_bytes_fill_unchecked(
    alloc: Global,
    handle: &mut Handle,
    start: usize,
    buf: &mut [u8],
    rows: &mut [Row],
    len: &mut usize,
    filled: &mut usize,
) -> u32
    ensures answer { Reads bytes_bytes handle.old.table.value result handle.new.table.value
        (λ kept. Packs (bytes_of (λ right. right.bytes.items)) bytes_row
        (drop start kept.held.pairs) result rows.old rows.new filled.new buf.old buf.new len.new) }
    ensures rows { IsWritten result rows.old rows.new }
    ensures buf { IsWritten result buf.old buf.new }
    ensures len { IsLengthWritten result len.old len.new }
    ensures filled { IsWritten result filled.old filled.new }
{
    on_table!(handle, alloc, BytesBytes,
        Ordered(table) => fill_by_rank(&table.map, start, buf, rows, len, filled),
        Hashed(table) => fill_by_steps(&table.map, start, buf, rows, len, filled),
        InsertionOrder(table) => fill_by_steps(&table.map, start, buf, rows, len, filled))
}

/// Writes pairs as `fill` does, but in the reverse order. It leaves out the last `start` pairs, which it passes over.
/// Returns 4 as `fill` does, and 6 if the table is hashed.
#[unsafe(no_mangle)]
pub extern "C" fn jetukoma_bytes_bytes_fill_back_unchecked(
    alloc: Global,
    handle: &mut Handle,
    start: usize,
    buf: &mut [u8],
    rows: &mut [Row],
    len: &mut usize,
    filled: &mut usize,
) -> u32
    ensures answer { ReadsAtEnd bytes_bytes handle.old.table.value result handle.new.table.value
        (λ kept. Packs (bytes_of (λ right. right.bytes.items)) bytes_row
        (drop start (reverse kept.held.pairs)) result rows.old rows.new filled.new buf.old buf.new
        len.new) }
    ensures rows { IsWritten result rows.old rows.new }
    ensures buf { IsWritten result buf.old buf.new }
    ensures len { IsLengthWritten result len.old len.new }
    ensures filled { IsWritten result filled.old filled.new }
{
    on_table!(handle, alloc, BytesBytes,
        Ordered(table) => fill_back(&table.map, start, buf, rows, len, filled),
        InsertionOrder(table) => fill_back(&table.map, start, buf, rows, len, filled))
}

/// Writes the pair whose left has exactly `rank` lefts below it. It writes each value to the front of its buffer, and
/// the two lengths. It takes one search. Returns 4 if a buffer is too short, 5 if there are no more pairs, and 6 if the
/// table is not ordered. On 4 it has written the lengths alone.
#[unsafe(no_mangle)]
pub extern "C" fn jetukoma_bytes_bytes_pair_at_rank_unchecked(
    alloc: Global,
    handle: &mut Handle,
    rank: usize,
    left_buf: &mut [u8],
    left_len: &mut usize,
    right_buf: &mut [u8],
    right_len: &mut usize,
) -> u32
    ensures answer { ReadsOrdered bytes_bytes handle.old.table.value result handle.new.table.value
        (λ kept. AreBothOut (slice_get kept.held.pairs rank) result left_buf.old left_buf.new
        left_len.new right_buf.old right_buf.new right_len.new) }
    ensures left_buf { IsWritten result left_buf.old left_buf.new }
    ensures left_len { IsLengthWritten result left_len.old left_len.new }
    ensures right_buf { IsWritten result right_buf.old right_buf.new }
    ensures right_len { IsLengthWritten result right_len.old right_len.new }
{
    on_table!(handle, alloc, BytesBytes, Ordered(table) => tell_pair(table.map.pair_at_left_rank(rank), left_buf, left_len, right_buf, right_len))
}

/// Writes how many lefts are less than this one, compared byte by byte. This one need not be contained. Returns 6
/// if the table is not ordered.
#[unsafe(no_mangle)]
pub extern "C" fn jetukoma_bytes_bytes_left_rank_unchecked(
    alloc: Global,
    handle: &mut Handle,
    left: &[u8],
    rank: &mut usize,
) -> u32
    ensures answer { ReadsOrdered bytes_bytes handle.old.table.value result handle.new.table.value
        (λ kept. IsRank (λ p. to_bytes p.0 left.now) kept.held.pairs result rank.new) }
    ensures out { IsWritten result rank.old rank.new }
{
    on_table!(handle, alloc, BytesBytes, Ordered(table) => left_rank(&table.map, By(left), rank))
}

/// Writes how many rights are less than this one, compared byte by byte. This one need not be contained. Returns 6
/// if the table is not ordered.
#[unsafe(no_mangle)]
pub extern "C" fn jetukoma_bytes_bytes_right_rank_unchecked(
    alloc: Global,
    handle: &mut Handle,
    right: &[u8],
    rank: &mut usize,
) -> u32
    ensures answer { ReadsOrdered bytes_bytes handle.old.table.value result handle.new.table.value
        (λ kept. ByRight byte_order kept.held.pairs
        (λ sorted. IsRank (λ p. to_bytes p.1 right.now) sorted result rank.new)) }
    ensures out { IsWritten result rank.old rank.new }
{
    on_table!(handle, alloc, BytesBytes, Ordered(table) => right_rank(&table.map, By(right), rank))
}

/// Writes pairs as `fill` does, but in ascending order of their rights. It takes one search, and at most one descent in
/// the tree for each pair. Returns 4 as `fill` does, and 6 if the table is not ordered.
#[unsafe(no_mangle)]
pub extern "C" fn jetukoma_bytes_bytes_fill_by_right_unchecked(
    alloc: Global,
    handle: &mut Handle,
    start: usize,
    buf: &mut [u8],
    rows: &mut [Row],
    len: &mut usize,
    filled: &mut usize,
) -> u32
    ensures answer { ReadsOrdered bytes_bytes handle.old.table.value result handle.new.table.value
        (λ kept. ByRight byte_order kept.held.pairs (λ sorted.
        Packs (bytes_of (λ right. right.bytes.items)) bytes_row (drop start sorted) result rows.old
        rows.new filled.new buf.old buf.new len.new)) }
    ensures rows { IsWritten result rows.old rows.new }
    ensures buf { IsWritten result buf.old buf.new }
    ensures len { IsLengthWritten result len.old len.new }
    ensures filled { IsWritten result filled.old filled.new }
{
    on_table!(handle, alloc, BytesBytes, Ordered(table) => fill_rows(&table.map, start, buf, rows, len, filled))
}

/// Removes a pair. In an ordered table it is the pair of the least left. In a table in insertion order it is the first
/// pair. The table keeps it, so that `overwritten_left` and `overwritten_right` copy it. Returns 5 if there are no
/// pairs, and 6 if the table is hashed.
#[unsafe(no_mangle)]
pub extern "C" fn jetukoma_bytes_bytes_pop_first_unchecked(
    alloc: Global,
    handle: &mut Handle,
) -> u32
    ensures { ChangesAtEnd bytes_bytes handle.old.table.value result handle.new.table.value
        (λ old new. PopsFirst old result new) }
{
    on_table!(handle, alloc, BytesBytes,
        Ordered(table) => strike(&mut table.struck, table.map.pop_first_by_left()),
        InsertionOrder(table) => strike(&mut table.struck, table.map.pop_first()))
}

/// Removes a pair. In an ordered table it is the pair of the greatest left. In a table in insertion order it is the
/// last pair. The table keeps it, so that `overwritten_left` and `overwritten_right` copy it. Returns 5 if there are no
/// pairs, and 6 if the table is hashed.
#[unsafe(no_mangle)]
pub extern "C" fn jetukoma_bytes_bytes_pop_last_unchecked(alloc: Global, handle: &mut Handle) -> u32
    ensures { ChangesAtEnd bytes_bytes handle.old.table.value result handle.new.table.value
        (λ old new. PopsLast old result new) }
{
    on_table!(handle, alloc, BytesBytes,
        Ordered(table) => strike(&mut table.struck, table.map.pop_last_by_left()),
        InsertionOrder(table) => strike(&mut table.struck, table.map.pop_last()))
}

/// Moves the pair of a left to the front of the insertion order. The other pairs keep their order. Returns 5 if the
/// left is not contained, and 6 if the table is not in insertion order.
#[unsafe(no_mangle)]
pub extern "C" fn jetukoma_bytes_bytes_to_front_unchecked(
    alloc: Global,
    handle: &mut Handle,
    left: &[u8],
) -> u32
    ensures { ChangesInOrder bytes_bytes handle.old.table.value result handle.new.table.value
        (λ old new. Moves (λ p. has_bytes p.0 left.now) ComesFirst old.held result new.held
        × (new.struck ≡ old.struck)) }
{
    on_table!(handle, alloc, BytesBytes, InsertionOrder(table) => found(table.map.to_front(By(left))))
}

/// Moves the pair of a left to the end of the insertion order. The other pairs keep their order. Returns 5 if the
/// left is not contained, and 6 if the table is not in insertion order.
#[unsafe(no_mangle)]
pub extern "C" fn jetukoma_bytes_bytes_to_back_unchecked(
    alloc: Global,
    handle: &mut Handle,
    left: &[u8],
) -> u32
    ensures { ChangesInOrder bytes_bytes handle.old.table.value result handle.new.table.value
        (λ old new. Moves (λ p. has_bytes p.0 left.now) (λ was p. ComesLast was p p) old.held result
        new.held × (new.struck ≡ old.struck)) }
{
    on_table!(handle, alloc, BytesBytes, InsertionOrder(table) => found(table.map.to_back(By(left))))
}
