//! The functions for C of a table of byte strings and numbers that use an order: iteration, ranks, ends and moves.
ghost use Rattle.std.specs.Prelude.{◌≡◌, drop, reverse, [], slice_get};
ghost use Rattle.std.specs.Ordering.{nat_cmp};
ghost use Rattle.bimap.specs.Moves.{ComesFirst};
ghost use Rattle.bimap.specs.Positions.{ComesLast};
ghost use Rattle.bimap_c.specs.Bytes.{IsPairOut, PopsFirst, PopsLast, has_bytes, to_bytes, IsLengthWritten};
ghost use Rattle.bimap_c.specs.Calls.{IsWritten, Reads, ReadsAtEnd, ReadsOrdered, ChangesAtEnd, ChangesInOrder, ByRight, IsRank, Moves};
ghost use Rattle.bimap_c.specs.Packed.{Packs, bytes_of, u64_row};
ghost use Rattle.bimap_c.specs.Tables.{bytes_u64};

use crate::by_right::fill_rows;
use crate::bytes::strike;
use crate::bytes_u64::{Row, tell_pair};
use crate::calls::{found, left_rank, right_rank};
use crate::fill::{fill_back, fill_by_rank, fill_by_steps};
use crate::handle::Handle;
use bimap_index::By;
use std::alloc::Global;

/// Writes pairs to the front of `rows`, each as the number of bytes of its left, and its right. The bytes of these lefts
/// go to the front of a buffer, one left behind another. The call leaves out the first `start` pairs. It writes as many
/// pairs as there are rows and as fit into the buffer. `filled` gets the number of these pairs, and `len` that of their
/// bytes. An ordered table has its pairs in ascending order of their lefts, and a table in insertion order in that
/// order. The order of a hashed table is not specified, and it stays the same until the table changes. An ordered table
/// takes one search, and at most one descent in the tree for each pair. A table of another kind passes over the pairs
/// that it leaves out. To read all its pairs, use many rows and a long buffer. Returns 4 if there is a row, and the
/// buffer is too short for the next pair. On 4 it has written the number of bytes of this pair to `len` alone.
#[unsafe(no_mangle)]
pub extern "C" fn jetukoma_bytes_u64_fill_unchecked(
    alloc: Global,
    handle: &mut Handle,
    start: usize,
    buf: &mut [u8],
    rows: &mut [Row],
    len: &mut usize,
    filled: &mut usize,
) -> u32
    ensures answer { Reads bytes_u64 handle.old.table.value result handle.new.table.value
        (λ kept. Packs (bytes_of (λ _. [])) u64_row (drop start kept.held.pairs)
        result rows.old rows.new filled.new buf.old buf.new len.new) }
    ensures rows { IsWritten result rows.old rows.new }
    ensures buf { IsWritten result buf.old buf.new }
    ensures len { IsLengthWritten result len.old len.new }
    ensures filled { IsWritten result filled.old filled.new }
{
    on_table!(handle, alloc, BytesU64,
        Ordered(table) => fill_by_rank(&table.map, start, buf, rows, len, filled),
        Hashed(table) => fill_by_steps(&table.map, start, buf, rows, len, filled),
        InsertionOrder(table) => fill_by_steps(&table.map, start, buf, rows, len, filled))
}

/// Writes pairs as `fill` does, but in the reverse order. It leaves out the last `start` pairs, which it passes over.
/// Returns 4 as `fill` does, and 6 if the table is hashed.
#[unsafe(no_mangle)]
pub extern "C" fn jetukoma_bytes_u64_fill_back_unchecked(
    alloc: Global,
    handle: &mut Handle,
    start: usize,
    buf: &mut [u8],
    rows: &mut [Row],
    len: &mut usize,
    filled: &mut usize,
) -> u32
    ensures answer { ReadsAtEnd bytes_u64 handle.old.table.value result handle.new.table.value
        (λ kept. Packs (bytes_of (λ _. [])) u64_row (drop start (reverse kept.held.pairs))
        result rows.old rows.new filled.new buf.old buf.new len.new) }
    ensures rows { IsWritten result rows.old rows.new }
    ensures buf { IsWritten result buf.old buf.new }
    ensures len { IsLengthWritten result len.old len.new }
    ensures filled { IsWritten result filled.old filled.new }
{
    on_table!(handle, alloc, BytesU64,
        Ordered(table) => fill_back(&table.map, start, buf, rows, len, filled),
        InsertionOrder(table) => fill_back(&table.map, start, buf, rows, len, filled))
}

/// Writes the pair whose left has exactly `rank` lefts below it. It writes the left to the front of a buffer, and its
/// length, and the right. It takes one search. Returns 4 if the buffer is too short, 5 if there are no more pairs, and
/// 6 if the table is not ordered. On 4 it has written the length alone.
#[unsafe(no_mangle)]
pub extern "C" fn jetukoma_bytes_u64_pair_at_rank_unchecked(
    alloc: Global,
    handle: &mut Handle,
    rank: usize,
    buf: &mut [u8],
    len: &mut usize,
    right: &mut u64,
) -> u32
    ensures answer { ReadsOrdered bytes_u64 handle.old.table.value result handle.new.table.value
        (λ kept. IsPairOut (slice_get kept.held.pairs rank) result buf.old buf.new len.new
        right.new) }
    ensures buf { IsWritten result buf.old buf.new }
    ensures len { IsLengthWritten result len.old len.new }
    ensures out { IsWritten result right.old right.new }
{
    on_table!(handle, alloc, BytesU64, Ordered(table) => tell_pair(table.map.pair_at_left_rank(rank), buf, len, right))
}

/// Writes how many lefts are less than this one, compared byte by byte. This one need not be contained. Returns 6
/// if the table is not ordered.
#[unsafe(no_mangle)]
pub extern "C" fn jetukoma_bytes_u64_left_rank_unchecked(
    alloc: Global,
    handle: &mut Handle,
    left: &[u8],
    rank: &mut usize,
) -> u32
    ensures answer { ReadsOrdered bytes_u64 handle.old.table.value result handle.new.table.value
        (λ kept. IsRank (λ p. to_bytes p.0 left.now) kept.held.pairs result rank.new) }
    ensures out { IsWritten result rank.old rank.new }
{
    on_table!(handle, alloc, BytesU64, Ordered(table) => left_rank(&table.map, By(left), rank))
}

/// Writes how many rights are less than this one, which need not be contained. Returns 6 if the table is not ordered.
#[unsafe(no_mangle)]
pub extern "C" fn jetukoma_bytes_u64_right_rank_unchecked(
    alloc: Global,
    handle: &mut Handle,
    right: u64,
    rank: &mut usize,
) -> u32
    ensures answer { ReadsOrdered bytes_u64 handle.old.table.value result handle.new.table.value
        (λ kept. ByRight nat_cmp kept.held.pairs
        (λ sorted. IsRank (λ p. nat_cmp p.1 right) sorted result rank.new)) }
    ensures out { IsWritten result rank.old rank.new }
{
    on_table!(handle, alloc, BytesU64, Ordered(table) => right_rank(&table.map, &right, rank))
}

/// Writes pairs as `fill` does, but in ascending order of their rights. It takes one search, and at most one descent in
/// the tree for each pair. Returns 4 as `fill` does, and 6 if the table is not ordered.
#[unsafe(no_mangle)]
pub extern "C" fn jetukoma_bytes_u64_fill_by_right_unchecked(
    alloc: Global,
    handle: &mut Handle,
    start: usize,
    buf: &mut [u8],
    rows: &mut [Row],
    len: &mut usize,
    filled: &mut usize,
) -> u32
    ensures answer { ReadsOrdered bytes_u64 handle.old.table.value result handle.new.table.value
        (λ kept. ByRight nat_cmp kept.held.pairs (λ sorted. Packs (bytes_of (λ _. [])) u64_row
        (drop start sorted) result rows.old rows.new filled.new buf.old buf.new len.new)) }
    ensures rows { IsWritten result rows.old rows.new }
    ensures buf { IsWritten result buf.old buf.new }
    ensures len { IsLengthWritten result len.old len.new }
    ensures filled { IsWritten result filled.old filled.new }
{
    on_table!(handle, alloc, BytesU64, Ordered(table) => fill_rows(&table.map, start, buf, rows, len, filled))
}

/// Removes a pair. In an ordered table it is the pair of the least left. In a table in insertion order it is the first
/// pair. The table keeps it, so that `overwritten_left` and `overwritten_right` copy it. Returns 5 if there are no
/// pairs, and 6 if the table is hashed.
#[unsafe(no_mangle)]
pub extern "C" fn jetukoma_bytes_u64_pop_first_unchecked(alloc: Global, handle: &mut Handle) -> u32
    ensures { ChangesAtEnd bytes_u64 handle.old.table.value result handle.new.table.value
        (λ old new. PopsFirst old result new) }
{
    on_table!(handle, alloc, BytesU64,
        Ordered(table) => strike(&mut table.struck, table.map.pop_first_by_left()),
        InsertionOrder(table) => strike(&mut table.struck, table.map.pop_first()))
}

/// Removes a pair. In an ordered table it is the pair of the greatest left. In a table in insertion order it is the
/// last pair. The table keeps it, so that `overwritten_left` and `overwritten_right` copy it. Returns 5 if there are no
/// pairs, and 6 if the table is hashed.
#[unsafe(no_mangle)]
pub extern "C" fn jetukoma_bytes_u64_pop_last_unchecked(alloc: Global, handle: &mut Handle) -> u32
    ensures { ChangesAtEnd bytes_u64 handle.old.table.value result handle.new.table.value
        (λ old new. PopsLast old result new) }
{
    on_table!(handle, alloc, BytesU64,
        Ordered(table) => strike(&mut table.struck, table.map.pop_last_by_left()),
        InsertionOrder(table) => strike(&mut table.struck, table.map.pop_last()))
}

/// Moves the pair of a left to the front of the insertion order. The other pairs keep their order. Returns 5 if the
/// left is not contained, and 6 if the table is not in insertion order.
#[unsafe(no_mangle)]
pub extern "C" fn jetukoma_bytes_u64_to_front_unchecked(
    alloc: Global,
    handle: &mut Handle,
    left: &[u8],
) -> u32
    ensures { ChangesInOrder bytes_u64 handle.old.table.value result handle.new.table.value
        (λ old new. Moves (λ p. has_bytes p.0 left.now) ComesFirst old.held result new.held
        × (new.struck ≡ old.struck)) }
{
    on_table!(handle, alloc, BytesU64, InsertionOrder(table) => found(table.map.to_front(By(left))))
}

/// Moves the pair of a left to the end of the insertion order. The other pairs keep their order. Returns 5 if the
/// left is not contained, and 6 if the table is not in insertion order.
#[unsafe(no_mangle)]
pub extern "C" fn jetukoma_bytes_u64_to_back_unchecked(
    alloc: Global,
    handle: &mut Handle,
    left: &[u8],
) -> u32
    ensures { ChangesInOrder bytes_u64 handle.old.table.value result handle.new.table.value
        (λ old new. Moves (λ p. has_bytes p.0 left.now) (λ was p. ComesLast was p p) old.held result
        new.held × (new.struck ≡ old.struck)) }
{
    on_table!(handle, alloc, BytesU64, InsertionOrder(table) => found(table.map.to_back(By(left))))
}
