//! The bodies of the calls that iterate by the rights of an ordered table.
ghost use Rattle.std.specs.Prelude.{◌≡◌, [], drop, MatchOption};
ghost use Rattle.std.specs.Ordering.{nat_cmp};
ghost use Rattle.bimap.specs.BTree.{holding, by_right, IsByRight};
ghost use Rattle.bimap_c.specs.Bytes.{IsLengthWritten};
ghost use Rattle.bimap_c.specs.Calls.{IsWritten, ByRight};
ghost use Rattle.bimap_c.specs.Packed.{Packs, bytes_of};
ghost use Rattle.bimap_c.specs.U64U64.{Fills};

use crate::byte_string::ByteString;
use crate::fill::{RightOfRow, pack_rows};
use crate::status::DONE;
use crate::u64_u64::{Pair, write_row};
use bimap::btree::RightRange;
use bimap::{BiBTreeMap, BijectiveMap, Index, Ordered};
use std::ops::Bound;

// Returns an iterator over the pairs from a rank of the rights on, or `None` if there are none.
fn from_rank<L: Eq + Drop, R: Ord + Drop, I: Index<L>>(
    map: &BijectiveMap<L, R, I, Ordered>,
    rank: usize,
) -> Option<RightRange<'_, L, R>>
    ensures rest { MatchOption result (drop rank (by_right map.now) ≡ [])
        (λ walk. walk ≡ drop rank (by_right map.now)) }
    ensures sorted { IsByRight R.cmp (holding map.now).pairs (by_right map.now) }
{
    match map.pair_at_right_rank(rank) {
        Some((_, from)) => Some(map.right_range_between(Bound::Included(from), Bound::Unbounded)),
        None => None,
    }
}

/// Writes the pairs from a rank of the rights on to the front of a row.
pub(crate) fn fill_row(
    map: &BiBTreeMap<u64, u64>,
    start: usize,
    row: &mut [Pair],
    filled: &mut usize,
) -> u32
    ensures { ByRight nat_cmp (holding map.now).pairs
        (λ sorted. Fills (drop start sorted) result row.old filled.new row.new) }
{
    *filled = match from_rank(map, start) {
        Some(walk) => write_row(walk, row),
        None => 0,
    };
    DONE
}

/// Writes the pairs from a rank of the rights on, as `pack_rows` does.
pub(crate) fn fill_rows<R: RightOfRow + Ord + Drop, I: Index<ByteString>>(
    map: &BijectiveMap<ByteString, R, I, Ordered>,
    start: usize,
    buf: &mut [u8],
    rows: &mut [R::Row],
    len: &mut usize,
    filled: &mut usize,
) -> u32
    ensures packed { ByRight R.cmp (holding map.now).pairs (λ sorted.
        Packs (bytes_of R.right_bytes) R.row_of (drop start sorted) result rows.old rows.new
        filled.new buf.old buf.new len.new) }
    ensures rows { IsWritten result rows.old rows.new }
    ensures buf { IsWritten result buf.old buf.new }
    ensures len { IsLengthWritten result len.old len.new }
    ensures filled { IsWritten result filled.old filled.new }
{
    match from_rank(map, start) {
        Some(walk) => pack_rows(walk, buf, rows, len, filled),
        None => {
            *len = 0;
            *filled = 0;
            DONE
        }
    }
}
