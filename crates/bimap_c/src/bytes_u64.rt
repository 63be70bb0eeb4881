//! The struct that C sees if the rights are numbers, and the bodies of calls.
ghost use Rattle.std.specs.Prelude.{◌≡◌, [], option_map};
ghost use Rattle.std.specs.Map.Iter.{deref, deref_pair};
ghost use Rattle.bimap_c.specs.Calls.{IsWritten, Tells};
ghost use Rattle.bimap_c.specs.Bytes.{IsPairOut, IsLengthWritten};
ghost use Rattle.bimap_c.specs.Packed.{u64_row};

use crate::byte_string::ByteString;
use crate::bytes::{GivenRight, copy_out};
use crate::fill::RightOfRow;
use crate::status::{DONE, NOT_FOUND};
use crate::u64_u64::tell_value;
use std::alloc::Global;

/// A pair: the number of bytes of its left, and its right.
#[repr(C)]
#[derive(Clone, Copy, Drop)]
pub struct Row {
    pub left_len: usize,
    pub right: u64,
}

impl RightOfRow for u64 {
    type Row = Row;

    ghost row_of = { u64_row };

    ghost right_bytes = { λ _. [] };

    fn to_row(left: &ByteString, right: &u64) -> Row {
        Row {
            left_len: left.bytes.len(),
            right: *right,
        }
    }

    ghost left_len = { λ row. row.left_len };

    ghost row_len = { λ row. row.left_len };

    fn as_bytes(&self) -> &[u8] {
        &[]
    }

    fn lens(row: &Row) -> (usize, usize) {
        (row.left_len, 0)
    }

    fn from_row(_alloc: Global, row: &Row, _bytes: &[u8]) -> Option<u64> {
        Some(row.right)
    }

    ghost told = { λ found status number old new len. Tells (option_map deref found) status number };

    fn tell(found: Option<&u64>, number: &mut u64, _buf: &mut [u8], _len: &mut usize) -> u32 {
        tell_value(found, number)
    }
}

impl GivenRight<u64> for u64 {
    ghost stands_for = { λ given right. right ≡ given };

    ghost may_fail = { ⊥ };

    fn into_right(self, _alloc: Global) -> Option<u64> {
        Some(self)
    }
}

/// Writes a pair if there is one, and returns the status.
pub(crate) fn tell_pair(
    found: Option<(&ByteString, &u64)>,
    buf: &mut [u8],
    len: &mut usize,
    right: &mut u64,
) -> u32
    ensures told { IsPairOut (option_map deref_pair found.entry) result buf.old buf.new len.new
        right.new }
    ensures buf { IsWritten result buf.old buf.new }
    ensures len { IsLengthWritten result len.old len.new }
    ensures out { IsWritten result right.old right.new }
{
    let Some((left, number)) = found else {
        return NOT_FOUND;
    };
    let status = copy_out(&left.bytes, buf, len);
    if status == DONE {
        *right = *number;
    }
    status
}
