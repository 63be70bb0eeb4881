//! The struct that C sees if the rights are byte strings, and the bodies of calls. They work on any map of two byte strings.
ghost use Rattle.std.specs.Prelude.{◌≡◌, ◌+◌, ⊤, Option, option_map};
ghost use Rattle.std.specs.Map.Iter.{deref_pair};
ghost use Rattle.bimap_c.specs.Calls.{IsWritten};
ghost use Rattle.bimap_c.specs.Bytes.{AreBytesOut, IsLengthWritten};
ghost use Rattle.bimap_c.specs.Packed.{bytes_row};
ghost use Rattle.bimap_c.specs.BytesBytes.{AreBothOut};

use crate::byte_string::ByteString;
use crate::bytes::{GivenRight, tell_bytes};
use crate::fill::RightOfRow;
use crate::status::{BUFFER_TOO_SHORT, DONE, NOT_FOUND};
use std::alloc::Global;

/// A pair: the number of bytes of its left, and that of its right.
#[repr(C)]
#[derive(Clone, Copy, Drop)]
pub struct Row {
    pub left_len: usize,
    pub right_len: usize,
}

impl RightOfRow for ByteString {
    type Row = Row;

    ghost row_of = { bytes_row };

    ghost right_bytes = { λ b. b.bytes.items };

    fn to_row(left: &ByteString, right: &ByteString) -> Row {
        Row {
            left_len: left.bytes.len(),
            right_len: right.bytes.len(),
        }
    }

    ghost left_len = { λ row. row.left_len };

    ghost row_len = { λ row. row.left_len + row.right_len };

    fn as_bytes(&self) -> &[u8] {
        &self.bytes
    }

    fn lens(row: &Row) -> (usize, usize) {
        (row.left_len, row.right_len)
    }

    fn from_row(alloc: Global, _row: &Row, bytes: &[u8]) -> Option<ByteString> {
        ByteString::copy_of(alloc, bytes)
    }

    ghost told = { λ found status number old new len.
        AreBytesOut (option_map (λ right. right.now.bytes.items) found) status old new len };

    fn tell(found: Option<&ByteString>, _number: &mut u64, buf: &mut [u8], len: &mut usize) -> u32 {
        tell_bytes(found, buf, len)
    }
}

impl<'a> GivenRight<ByteString> for &'a [u8] {
    ghost stands_for = { λ given right. right.bytes.items ≡ given.now };

    ghost may_fail = { ⊤ };

    fn into_right(self, alloc: Global) -> Option<ByteString> {
        ByteString::copy_of(alloc, self)
    }
}

/// Writes a pair if there is one, and returns the status.
pub(crate) fn tell_pair(
    found: Option<(&ByteString, &ByteString)>,
    left_buf: &mut [u8],
    left_len: &mut usize,
    right_buf: &mut [u8],
    right_len: &mut usize,
) -> u32
    ensures told { AreBothOut (option_map deref_pair found.entry) result left_buf.old left_buf.new
        left_len.new right_buf.old right_buf.new right_len.new }
    ensures left_buf { IsWritten result left_buf.old left_buf.new }
    ensures left_len { IsLengthWritten result left_len.old left_len.new }
    ensures right_buf { IsWritten result right_buf.old right_buf.new }
    ensures right_len { IsLengthWritten result right_len.old right_len.new }
{
    let Some((left, right)) = found else {
        return NOT_FOUND;
    };
    *left_len = left.bytes.len();
    *right_len = right.bytes.len();
    if left_buf.len() < left.bytes.len() || right_buf.len() < right.bytes.len() {
        return BUFFER_TOO_SHORT;
    }
    left_buf[..left.bytes.len()].copy_from_slice(&left.bytes);
    right_buf[..right.bytes.len()].copy_from_slice(&right.bytes);
    DONE
}
