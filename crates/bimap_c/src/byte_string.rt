//! Byte strings as a side of a map.
ghost use Rattle.std.specs.Prelude.{◌≡◌, nat_eq, IfSome};
ghost use Rattle.std.proofs.Common.{ap, sym};
ghost use Rattle.std.specs.Cmp.Lexicographic.{nat_list_eq_equiv, nat_list_cmp_total, slice_cmp, texts_ties, bytes_decides, pointwise};
ghost use Rattle.std.specs.Hash as fed;
ghost use Rattle.std.specs.Ordering.{nat_cmp};
ghost use Rattle.bimap_base.specs.QueryLaws.{respects_equal, follows_itself};

use bimap::value::{JsonKey, ReadFault};
use bimap::{NoMemory, OrderQuery, Query};
use bimap_base::HashQuery;
use std::alloc::{AllocError, Global};
use std::cmp::Ordering;
use std::str;

/// A byte string. Byte strings are compared byte by byte.
#[derive(Drop, Eq, Hash, Ord, PartialEq, PartialOrd)]
pub struct ByteString {
    pub bytes: Vec<u8>,
}

impl ByteString {
    /// Returns a copy of the bytes, or `None` if there is no memory for them.
    pub(crate) fn copy_of(alloc: Global, bytes: &[u8]) -> Option<ByteString>
        ensures { IfSome result (λ copy. copy.bytes.items ≡ bytes.now) }
    {
        match Vec::from_slice(alloc, bytes) {
            Ok(bytes) => Some(ByteString { bytes }),
            Err(_) => None,
        }
    }
}

impl Clone for ByteString {
    ghost is_clone = { λ b copy. copy.bytes.items ≡ b.bytes.items };

    fn clone(&self) -> Result<ByteString, AllocError> {
        Ok(ByteString {
            bytes: self.bytes.clone()?,
        })
    }
}

/// The bytes of a byte string find it, without a copy.
impl Query<ByteString> for &[u8] {
    ghost same = { λ b bytes. pointwise nat_eq b.bytes.items bytes.now };

    ghost respects = { λ bytes x y. respects_equal nat_list_eq_equiv bytes.now x.bytes.items
        y.bytes.items };

    fn is(&self, key: &ByteString) -> bool {
        key.bytes.as_slice() == *self
    }
}

impl OrderQuery<ByteString> for &[u8] {
    ghost order = { λ b bytes. slice_cmp nat_cmp b.bytes.items bytes.now };

    ghost agrees = { λ bytes x. texts_ties x.bytes.items bytes.now };

    ghost follows = { λ bytes x y. follows_itself nat_list_cmp_total bytes.now x.bytes.items
        y.bytes.items };

    fn order(&self, key: &ByteString) -> Ordering {
        key.bytes.as_slice().cmp(*self)
    }
}

impl HashQuery<ByteString> for &[u8] {
    ghost hashed = { λ bytes b e. sym (ap (fed.slice fed.u8) ((bytes_decides b.bytes.items
        bytes.now).0 e)) };
}

/// A byte string in UTF-8 is written as its text. For other byte strings `to_key` returns `NoMemory`. A caller that
/// writes a table tests for them first.
impl JsonKey for ByteString {
    ghost writes_key = { λ b. b.bytes.items };

    ghost reads_key = { λ text b. b.bytes.items ≡ text };

    fn to_key(&self, alloc: Global) -> Result<String, NoMemory> {
        match str::from_utf8(&self.bytes) {
            Ok(text) => Ok(String::from_str(alloc, text)?),
            Err(_) => Err(NoMemory),
        }
    }

    fn from_key(alloc: Global, text: &str) -> Result<ByteString, ReadFault> {
        match ByteString::copy_of(alloc, text.as_bytes()) {
            Some(key) => Ok(key),
            None => Err(ReadFault::Memory),
        }
    }
}
