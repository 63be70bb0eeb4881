//! The functions for C of a table of two numbers that use an order: iteration, ranks, ends and moves.
ghost use Rattle.std.specs.Prelude.{drop, reverse, nat_eq, nat_lt, not};
ghost use Rattle.std.specs.List.{filter};
ghost use Rattle.std.specs.Ordering.{nat_cmp};
ghost use Rattle.bimap.specs.BTree.{holding};
ghost use Rattle.bimap.specs.Moves.{ComesFirst};
ghost use Rattle.bimap.specs.Positions.{ComesLast};
ghost use Rattle.bimap_c.specs.Calls.{IsWritten, Reads, ReadsAtEnd, ReadsOrdered, ChangesAtEnd, ChangesInOrder, Moves, ByRight, IsRank};
ghost use Rattle.bimap_c.specs.Tables.{u64_u64};
ghost use Rattle.bimap_c.specs.U64U64.{PopsFirst, PopsLast, Fills};

use crate::by_right::fill_row;
use crate::calls::{found, left_rank, right_rank};
use crate::fill::from_rank;
use crate::handle::Handle;
use crate::status::DONE;
use crate::u64_u64::{Pair, tell_pair, write_row};
use bimap::{BiBTreeMap, BijectiveMap, Index, WalkedIndex};
use bimap_walk::CourseBack;
use std::alloc::Global;

/// Writes pairs to the front of a row, until the row is full or there are no more. It leaves out the first `start`
/// pairs, and writes to `filled` how many pairs it wrote. An ordered table has its pairs in ascending order of their
/// lefts, and a table in insertion order in that order. The order of a hashed table is not specified, and it stays the
/// same until the table changes. An ordered table takes one search, and at most one descent in the tree for each pair.
/// A table of another kind passes over the pairs that it leaves out. To read all its pairs, use one long row or a few.
#[unsafe(no_mangle)]
pub extern "C" fn jetukoma_u64_u64_fill_unchecked(
    alloc: Global,
    handle: &mut Handle,
    start: usize,
    row: &mut [Pair],
    filled: &mut usize,
) -> u32
    ensures answer { Reads u64_u64 handle.old.table.value result handle.new.table.value
        (λ held. Fills (drop start held.pairs) result row.old filled.new row.new) }
    ensures out { IsWritten result filled.old filled.new }
    ensures row { IsWritten result row.old row.new }
{
    on_table!(handle, alloc, U64U64,
        Ordered(map) => fill_by_rank(map, start, row, filled),
        Hashed(map) => fill_by_steps(map, start, row, filled),
        InsertionOrder(map) => fill_by_steps(map, start, row, filled))
}

/// Writes pairs as `fill` does, but in the reverse order. It leaves out the last `start` pairs, which it passes over.
/// Returns 6 if the table is hashed.
#[unsafe(no_mangle)]
pub extern "C" fn jetukoma_u64_u64_fill_back_unchecked(
    alloc: Global,
    handle: &mut Handle,
    start: usize,
    row: &mut [Pair],
    filled: &mut usize,
) -> u32
    ensures answer { ReadsAtEnd u64_u64 handle.old.table.value result handle.new.table.value
        (λ held. Fills (drop start (reverse held.pairs)) result row.old filled.new row.new) }
    ensures out { IsWritten result filled.old filled.new }
    ensures row { IsWritten result row.old row.new }
{
    on_table!(handle, alloc, U64U64,
        Ordered(map) => fill_back(map, start, row, filled),
        InsertionOrder(map) => fill_back(map, start, row, filled))
}

/// Writes the pairs whose left is at least `from`, as `fill` does. Returns 6 if the table is not ordered.
#[unsafe(no_mangle)]
pub extern "C" fn jetukoma_u64_u64_fill_from_unchecked(
    alloc: Global,
    handle: &mut Handle,
    from: u64,
    row: &mut [Pair],
    filled: &mut usize,
) -> u32
    ensures answer { ReadsOrdered u64_u64 handle.old.table.value result handle.new.table.value
        (λ held. Fills (filter (λ p. not (nat_lt p.0 from)) held.pairs) result row.old
        filled.new row.new) }
    ensures out { IsWritten result filled.old filled.new }
    ensures row { IsWritten result row.old row.new }
{
    on_table!(handle, alloc, U64U64, Ordered(map) => fill_from(map, from, row, filled))
}

/// Writes how many lefts are less than this one, which need not be contained. Returns 6 if the table is not ordered.
#[unsafe(no_mangle)]
pub extern "C" fn jetukoma_u64_u64_left_rank_unchecked(
    alloc: Global,
    handle: &mut Handle,
    left: u64,
    rank: &mut usize,
) -> u32
    ensures answer { ReadsOrdered u64_u64 handle.old.table.value result handle.new.table.value
        (λ held. IsRank (λ p. nat_cmp p.0 left) held.pairs result rank.new) }
    ensures out { IsWritten result rank.old rank.new }
{
    on_table!(handle, alloc, U64U64, Ordered(map) => left_rank(map, &left, rank))
}

/// Writes how many rights are less than this one, which need not be contained. Returns 6 if the table is not ordered.
#[unsafe(no_mangle)]
pub extern "C" fn jetukoma_u64_u64_right_rank_unchecked(
    alloc: Global,
    handle: &mut Handle,
    right: u64,
    rank: &mut usize,
) -> u32
    ensures answer { ReadsOrdered u64_u64 handle.old.table.value result handle.new.table.value
        (λ held. ByRight nat_cmp held.pairs
        (λ sorted. IsRank (λ p. nat_cmp p.1 right) sorted result rank.new)) }
    ensures out { IsWritten result rank.old rank.new }
{
    on_table!(handle, alloc, U64U64, Ordered(map) => right_rank(map, &right, rank))
}

/// Writes pairs as `fill` does, but in ascending order of their rights. It takes one search, and at most one descent in
/// the tree for each pair. Returns 6 if the table is not ordered.
#[unsafe(no_mangle)]
pub extern "C" fn jetukoma_u64_u64_fill_by_right_unchecked(
    alloc: Global,
    handle: &mut Handle,
    start: usize,
    row: &mut [Pair],
    filled: &mut usize,
) -> u32
    ensures answer { ReadsOrdered u64_u64 handle.old.table.value result handle.new.table.value
        (λ held. ByRight nat_cmp held.pairs (λ sorted. Fills (drop start sorted) result row.old
        filled.new row.new)) }
    ensures out { IsWritten result filled.old filled.new }
    ensures row { IsWritten result row.old row.new }
{
    on_table!(handle, alloc, U64U64, Ordered(map) => fill_row(map, start, row, filled))
}

/// Removes a pair, and writes it. In an ordered table it is the pair of the least left. In a table in insertion order
/// it is the first pair. Returns 5 if there are no pairs, and 6 if the table is hashed.
#[unsafe(no_mangle)]
pub extern "C" fn jetukoma_u64_u64_pop_first_unchecked(
    alloc: Global,
    handle: &mut Handle,
    pair: &mut Pair,
) -> u32
    ensures change { ChangesAtEnd u64_u64 handle.old.table.value result handle.new.table.value
        (λ old new. PopsFirst old result new pair.new) }
    ensures out { IsWritten result pair.old pair.new }
{
    on_table!(handle, alloc, U64U64,
        Ordered(map) => tell_pair(map.pop_first_by_left(), pair),
        InsertionOrder(map) => tell_pair(map.pop_first(), pair))
}

/// Removes a pair, and writes it. In an ordered table it is the pair of the greatest left. In a table in insertion
/// order it is the last pair. Returns 5 if there are no pairs, and 6 if the table is hashed.
#[unsafe(no_mangle)]
pub extern "C" fn jetukoma_u64_u64_pop_last_unchecked(
    alloc: Global,
    handle: &mut Handle,
    pair: &mut Pair,
) -> u32
    ensures change { ChangesAtEnd u64_u64 handle.old.table.value result handle.new.table.value
        (λ old new. PopsLast old result new pair.new) }
    ensures out { IsWritten result pair.old pair.new }
{
    on_table!(handle, alloc, U64U64,
        Ordered(map) => tell_pair(map.pop_last_by_left(), pair),
        InsertionOrder(map) => tell_pair(map.pop_last(), pair))
}

/// Moves the pair of a left to the front of the insertion order. The other pairs keep their order. Returns 5 if the left
/// is not contained, and 6 if the table is not in insertion order.
#[unsafe(no_mangle)]
pub extern "C" fn jetukoma_u64_u64_to_front_unchecked(
    alloc: Global,
    handle: &mut Handle,
    left: u64,
) -> u32
    ensures { ChangesInOrder u64_u64 handle.old.table.value result handle.new.table.value
        (λ old new. Moves (λ p. nat_eq p.0 left) ComesFirst old result new) }
{
    on_table!(handle, alloc, U64U64, InsertionOrder(map) => found(map.to_front(&left)))
}

/// Moves the pair of a left to the end of the insertion order. The other pairs keep their order. Returns 5 if the left
/// is not contained, and 6 if the table is not in insertion order.
#[unsafe(no_mangle)]
pub extern "C" fn jetukoma_u64_u64_to_back_unchecked(
    alloc: Global,
    handle: &mut Handle,
    left: u64,
) -> u32
    ensures { ChangesInOrder u64_u64 handle.old.table.value result handle.new.table.value
        (λ old new. Moves (λ p. nat_eq p.0 left) (λ was p. ComesLast was p p) old result new) }
{
    on_table!(handle, alloc, U64U64, InsertionOrder(map) => found(map.to_back(&left)))
}

fn fill_from(map: &BiBTreeMap<u64, u64>, from: u64, row: &mut [Pair], filled: &mut usize) -> u32
    ensures { Fills (filter (λ p. not (nat_lt p.0 from)) (holding map.now).pairs) result row.old
        filled.new row.new }
{
    *filled = write_row(map.left_range(from..), row);
    DONE
}

fn fill_by_rank(
    map: &BiBTreeMap<u64, u64>,
    start: usize,
    row: &mut [Pair],
    filled: &mut usize,
) -> u32
    ensures { Fills (drop start (holding map.now).pairs) result row.old filled.new row.new }
{
    *filled = match from_rank(map, start) {
        Some(walk) => write_row(walk, row),
        None => 0,
    };
    DONE
}

fn fill_by_steps<I: WalkedIndex<u64>, J: Index<u64>>(
    map: &BijectiveMap<u64, u64, I, J>,
    start: usize,
    row: &mut [Pair],
    filled: &mut usize,
) -> u32
    ensures { Fills (drop start (holding map.now).pairs) result row.old filled.new row.new }
{
    *filled = write_row(map.iter().skip(start), row);
    DONE
}

fn fill_back<I: WalkedIndex<u64>, J: Index<u64>>(
    map: &BijectiveMap<u64, u64, I, J>,
    start: usize,
    row: &mut [Pair],
    filled: &mut usize,
) -> u32
where
    I::Way: CourseBack,
    ensures { Fills (drop start (reverse (holding map.now).pairs)) result row.old filled.new
        row.new }
{
    *filled = write_row(map.iter().rev().skip(start), row);
    DONE
}
