//! The tables.
use crate::byte_string::ByteString;
use crate::bytes::AnyBytesTable;
use bimap::Seeded;
use bimap_dynamic::AnyMap;

/// The table of a handle: a map of one kind, with one type for each side.
#[derive(Drop)]
pub enum CTable {
    /// Numbers and numbers.
    U64U64(AnyMap<u64, u64, Seeded, Seeded>),
    /// Byte strings and numbers.
    BytesU64(AnyBytesTable<u64>),
    /// Byte strings and byte strings.
    BytesBytes(AnyBytesTable<ByteString>),
}
