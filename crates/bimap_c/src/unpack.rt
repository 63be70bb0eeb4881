//! The insertion of many pairs with byte strings, as C gives them: a row for each pair, and their bytes in one buffer.
//! The bytes of the pairs stand behind one another, as `fill` writes them.
ghost use Rattle.std.specs.Prelude.{◌≡◌, ◌≤◌, ◌+◌, ◌++◌, ◌↔◌, IsTrue, true, false, length, sum_by};
ghost use Rattle.bimap_c.specs.Bytes.{kept};
ghost use Rattle.bimap_c.specs.Packed.{bytes_of};
ghost use Rattle.bimap_c.specs.Unpacked.{IsPut, InsertsFirst, InsertsMany};
ghost use Rattle.bimap_c.specs.declared.byte_string.ByteString.{ByteString};

use crate::byte_string::ByteString;
use crate::bytes::{BytesTable, insert_under};
use crate::calls::OVERWRITE_BOTH;
use crate::fill::RightOfRow;
use crate::status::{DONE, NO_MEMORY, REFUSED};
use bimap::Bijection;
use std::alloc::Global;

/// Inserts the pairs of the rows in order, each as `insert` does. Writes how many it inserted, and returns the status.
pub(crate) fn insert_many<R: RightOfRow + Eq + Drop, B: Bijection<ByteString, R>>(
    alloc: Global,
    table: &mut BytesTable<R, B>,
    bytes: &[u8],
    rows: &[R::Row],
    taken: &mut usize,
) -> u32
    ensures inserted { InsertsMany R.eq R.row_of (bytes_of R.right_bytes) R.row_len
        (kept B.holding table.old) rows.now bytes.now result (kept B.holding table.new)
        taken.new }
    ensures out { result ≡ 3 → taken.new ≡ taken.old }
{
    if !are_within::<R>(rows, bytes.len()) {
        return REFUSED;
    }
    *taken = insert_rows(alloc, table, bytes, rows);
    if *taken == rows.len() {
        DONE
    } else {
        NO_MEMORY
    }
}

// Returns whether the rows have at most this many bytes.
fn are_within<R: RightOfRow>(rows: &[R::Row], len: usize) -> bool
    ensures { IsTrue result ↔ (sum_by R.row_len rows.now ≤ len) }
{
    let mut room = len;
    for row in rows {
        let (left, right) = R::lens(row);
        if room < left || room - left < right {
            return false;
        }
        room -= left + right;
    }
    true
}

// Inserts the pairs of the rows until one runs out of memory. Returns how many it inserted.
fn insert_rows<R: RightOfRow + Eq + Drop, B: Bijection<ByteString, R>>(
    alloc: Global,
    table: &mut BytesTable<R, B>,
    bytes: &[u8],
    rows: &[R::Row],
) -> usize
    requires { sum_by R.row_len rows.now ≤ length bytes.now }
    ensures { InsertsFirst R.eq R.row_of (bytes_of R.right_bytes) (kept B.holding table.old)
        rows.now bytes.now result (kept B.holding table.new) }
{
    let mut from = 0;
    for (at, row) in rows.iter().enumerate() {
        let (left, right) = R::lens(row);
        let middle = from + left;
        let end = middle + right;
        if !insert_row(alloc, table, row, &bytes[from..middle], &bytes[middle..end]) {
            return at;
        }
        from = end;
    }
    rows.len()
}

// Inserts the pair of a row, and returns whether there was memory for it.
fn insert_row<R: RightOfRow + Eq + Drop, B: Bijection<ByteString, R>>(
    alloc: Global,
    table: &mut BytesTable<R, B>,
    row: &R::Row,
    left: &[u8],
    right: &[u8],
) -> bool
    requires left { length left.now ≡ R.left_len row.now }
    requires both { length left.now + length right.now ≡ R.row_len row.now }
    ensures inserted { result ≡ true → (p : ByteString × R) × (R.row_of p ≡ row.now)
        × (bytes_of R.right_bytes p ≡ left.now ++ right.now)
        × IsPut R.eq (kept B.holding table.old) p (kept B.holding table.new) }
    ensures unchanged { result ≡ false → kept B.holding table.new ≡ kept B.holding table.old }
{
    match R::from_row(alloc, row, right) {
        Some(right) => insert_under(alloc, table, left, right, OVERWRITE_BOTH, &mut 0) == DONE,
        None => false,
    }
}
