//! Pairs with byte strings as C reads them: a row for each pair, and its bytes in one buffer. The bytes of the pairs
//! stand behind one another.
ghost use Rattle.std.specs.Prelude.{◌≡◌, ◌≤◌, ◌+◌, ◌++◌, ℕ, Option, List, [], length, take, drop, reverse, IfSome, MatchOption};
ghost use Rattle.std.specs.Borrow.{Bor};
ghost use Rattle.std.specs.Iterator.{AlwaysYields, IsFinite};
ghost use Rattle.std.specs.Map.Iter.{deref_pair};
ghost use Rattle.bimap.specs.BTree.{holding};
ghost use Rattle.bimap_c.specs.Bytes.{IsLengthWritten};
ghost use Rattle.bimap_c.specs.Calls.{IsWritten};
ghost use Rattle.bimap_c.specs.Packed.{IsWrittenBehind, Packs, bytes_of};
ghost use Rattle.bimap_c.specs.declared.byte_string.ByteString.{ByteString};

use crate::byte_string::ByteString;
use crate::status::{BUFFER_TOO_SHORT, DONE};
use bimap::btree::LeftRange;
use bimap::{BijectiveMap, Index, Ordered, WalkedIndex};
use bimap_walk::CourseBack;
use std::alloc::Global;
use std::ops::Bound;

/// What C reads and gives of a pair of a byte string and a right of this type.
pub(crate) trait RightOfRow {
    type Row: Copy + Drop;

    /// The row of a pair.
    ghost row_of: { ByteString × Self → Self.Row };

    /// The bytes of the right, which stand behind those of the left.
    ghost right_bytes: { Self → List ℕ };

    fn to_row(left: &ByteString, right: &Self) -> Self::Row
        ensures { result ≡ row_of (left.now, right.now) };

    /// The number of bytes of the left of a row.
    ghost left_len: { Self.Row → ℕ };

    /// The number of bytes of a row: those of its left and those of its right.
    ghost row_len: { Self.Row → ℕ };

    fn as_bytes(&self) -> &[u8]
        ensures { result.now ≡ right_bytes self.now };

    /// Returns the number of bytes of the left of a row, and of its right.
    fn lens(row: &Self::Row) -> (usize, usize)
        ensures left { result.0 ≡ left_len row.now }
        ensures both { result.0 + result.1 ≡ row_len row.now };

    /// Returns the right of a row that has these bytes, or `None` if there is no memory for a copy of them.
    fn from_row(alloc: Global, row: &Self::Row, bytes: &[u8]) -> Option<Self>
        requires { left_len row.now + length bytes.now ≡ row_len row.now }
        ensures { IfSome result (λ right. (right_bytes right ≡ bytes.now)
            × ((left : ByteString) → length left.bytes.items ≡ left_len row.now →
            row_of (left, right) ≡ row.now)) };

    /// What a look-up for this right returns and writes: a status, and a number or bytes with their length.
    ghost told: { Option (Bor Self) → ℕ → ℕ → List ℕ → List ℕ → ℕ → Type 0 };

    /// Writes the number or the bytes of a right if there is one, and returns the status.
    fn tell(found: Option<&Self>, number: &mut u64, buf: &mut [u8], len: &mut usize) -> u32
        ensures told { told found.entry result number.new buf.old buf.new len.new }
        ensures number { IsWritten result number.old number.new }
        ensures buf { IsWritten result buf.old buf.new }
        ensures len { IsLengthWritten result len.old len.new };
}

/// Writes the pairs of an iterator, as many as there are rows and as fit into the buffer. Returns the status.
pub(crate) fn pack_rows<'a, R: RightOfRow + 'a, W: Iterator<Item = (&'a ByteString, &'a R)>>(
    walk: W,
    buf: &mut [u8],
    rows: &mut [R::Row],
    len: &mut usize,
    filled: &mut usize,
) -> u32
    requires { W.can_next walk × IsFinite (W.remaining walk) }
    ensures packed { (pairs : List (ByteString × R))
        → AlwaysYields W.next_gives deref_pair walk pairs
        → Packs (bytes_of R.right_bytes) R.row_of pairs result rows.old rows.new filled.new buf.old
        buf.new len.new }
    ensures rows { IsWritten result rows.old rows.new }
    ensures buf { IsWritten result buf.old buf.new }
    ensures len { IsLengthWritten result len.old len.new }
    ensures filled { IsWritten result filled.old filled.new }
{
    let mut count = 0;
    let mut used = 0;
    for (left, right) in walk {
        if count == rows.len() {
            break;
        }
        let (first, second) = (left.bytes.as_slice(), right.as_bytes());
        let Some(end) = put_both(first, second, buf, used) else {
            if count == 0 {
                *len = first.len() + second.len();
                return BUFFER_TOO_SHORT;
            }
            break;
        };
        rows[count] = R::to_row(left, right);
        used = end;
        count += 1;
    }
    *len = used;
    *filled = count;
    DONE
}

// Writes two byte strings behind one another, and behind the first `at` bytes of a buffer. Returns where they end, or
// `None` if they do not fit.
fn put_both(first: &[u8], second: &[u8], buf: &mut [u8], at: usize) -> Option<usize>
    requires { at ≤ length buf.old }
    ensures { IsWrittenBehind (first.now ++ second.now) at buf.old buf.new result }
{
    let room = buf.len() - at;
    if room < first.len() || room - first.len() < second.len() {
        return None;
    }
    let middle = at + first.len();
    put(first, buf, at);
    put(second, buf, middle);
    Some(middle + second.len())
}

fn put(bytes: &[u8], buf: &mut [u8], at: usize)
    requires { at + length bytes.now ≤ length buf.old }
    ensures { buf.new ≡ take at buf.old ++ bytes.now ++ drop (at + length bytes.now) buf.old }
{
    buf[at..at + bytes.len()].copy_from_slice(bytes);
}

/// Returns an iterator over the pairs from a rank on, or `None` if there are none.
pub(crate) fn from_rank<L: Ord + Drop, R: Eq + Drop, J: Index<R>>(
    map: &BijectiveMap<L, R, Ordered, J>,
    rank: usize,
) -> Option<LeftRange<'_, L, R>>
    ensures { MatchOption result (drop rank (holding map.now).pairs ≡ [])
        (λ walk. walk ≡ drop rank (holding map.now).pairs) }
{
    match map.pair_at_left_rank(rank) {
        Some((from, _)) => Some(map.left_range_between(Bound::Included(from), Bound::Unbounded)),
        None => None,
    }
}

/// Writes the pairs from a rank on, as `pack_rows` does.
pub(crate) fn fill_by_rank<R: RightOfRow + Eq + Drop, J: Index<R>>(
    map: &BijectiveMap<ByteString, R, Ordered, J>,
    start: usize,
    buf: &mut [u8],
    rows: &mut [R::Row],
    len: &mut usize,
    filled: &mut usize,
) -> u32
    ensures packed { Packs (bytes_of R.right_bytes) R.row_of (drop start (holding map.now).pairs)
        result rows.old rows.new filled.new buf.old buf.new len.new }
    ensures rows { IsWritten result rows.old rows.new }
    ensures buf { IsWritten result buf.old buf.new }
    ensures len { IsLengthWritten result len.old len.new }
    ensures filled { IsWritten result filled.old filled.new }
{
    match from_rank(map, start) {
        Some(walk) => pack_rows(walk, buf, rows, len, filled),
        None => {
            *len = 0;
            *filled = 0;
            DONE
        }
    }
}

/// Writes the pairs from a position on, as `pack_rows` does. It passes over the pairs before.
pub(crate) fn fill_by_steps<R: RightOfRow + Eq + Drop, I: WalkedIndex<ByteString>, J: Index<R>>(
    map: &BijectiveMap<ByteString, R, I, J>,
    start: usize,
    buf: &mut [u8],
    rows: &mut [R::Row],
    len: &mut usize,
    filled: &mut usize,
) -> u32
    ensures packed { Packs (bytes_of R.right_bytes) R.row_of (drop start (holding map.now).pairs)
        result rows.old rows.new filled.new buf.old buf.new len.new }
    ensures rows { IsWritten result rows.old rows.new }
    ensures buf { IsWritten result buf.old buf.new }
    ensures len { IsLengthWritten result len.old len.new }
    ensures filled { IsWritten result filled.old filled.new }
{
    pack_rows(map.iter().skip(start), buf, rows, len, filled)
}

/// Writes the pairs from a position on, counted from the end, as `pack_rows` does. It passes over the pairs behind.
pub(crate) fn fill_back<R: RightOfRow + Eq + Drop, I: WalkedIndex<ByteString>, J: Index<R>>(
    map: &BijectiveMap<ByteString, R, I, J>,
    start: usize,
    buf: &mut [u8],
    rows: &mut [R::Row],
    len: &mut usize,
    filled: &mut usize,
) -> u32
where
    I::Way: CourseBack,
    ensures packed { Packs (bytes_of R.right_bytes) R.row_of
        (drop start (reverse (holding map.now).pairs)) result rows.old rows.new filled.new buf.old
        buf.new len.new }
    ensures rows { IsWritten result rows.old rows.new }
    ensures buf { IsWritten result buf.old buf.new }
    ensures len { IsLengthWritten result len.old len.new }
    ensures filled { IsWritten result filled.old filled.new }
{
    pack_rows(map.iter().rev().skip(start), buf, rows, len, filled)
}
