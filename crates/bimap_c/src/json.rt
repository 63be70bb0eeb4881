//! Writes tables of byte strings and numbers as the text of a JSON object, and reads them. This works on a map of each
//! kind.
ghost use Rattle.std.specs.Prelude.{◌≡◌, [], Contains, IfOk, OnOk};
ghost use Rattle.serde_json.specs.View.{view};
ghost use Rattle.bimap.specs.BTree.{holding};
ghost use Rattle.bimap.specs.JsonObjects.{IsObjectOf, IsEntryOf, EachReadsBack};
ghost use Rattle.bimap_c.specs.Calls.{IsWritten};
ghost use Rattle.bimap_c.specs.Bytes.{kept, IsLengthWritten};
ghost use Rattle.bimap_c.specs.Json.{WritesJson, WritesTexts, ReadsJson, read_status};

use crate::byte_string::ByteString;
use crate::bytes::{BytesTable, copy_out};
use crate::calls::REFUSE_BOTH;
use crate::status::{DONE, NO_MEMORY, REFUSED};
use bimap::value::{JsonFault, JsonKey, JsonValue, Value, read_text_with, write_walk};
use bimap::{Bijection, BijectiveMap, Index, NoMemory, Overwritten, WalkedIndex};
use std::alloc::Global;
use std::str;

/// Writes the pairs if their lefts are all text, and returns the status.
pub(crate) fn to_json<I: WalkedIndex<ByteString>, J: Index<u64>>(
    alloc: Global,
    map: &BijectiveMap<ByteString, u64, I, J>,
    buf: &mut [u8],
    len: &mut usize,
) -> u32
    ensures told { WritesTexts (holding map.now).pairs result buf.old buf.new len.new }
    ensures buf { IsWritten result buf.old buf.new }
    ensures len { IsLengthWritten result len.old len.new }
{
    if map
        .iter()
        .all(|(left, _)| str::from_utf8(&left.bytes).is_ok())
    {
        write_json(alloc, map, buf, len)
    } else {
        REFUSED
    }
}

// Writes the pairs, whose lefts are all text, and returns the status.
fn write_json<I: WalkedIndex<ByteString>, J: Index<u64>>(
    alloc: Global,
    map: &BijectiveMap<ByteString, u64, I, J>,
    buf: &mut [u8],
    len: &mut usize,
) -> u32
    ensures told { WritesJson (holding map.now).pairs result buf.old buf.new len.new }
    ensures buf { IsWritten result buf.old buf.new }
    ensures len { IsLengthWritten result len.old len.new }
{
    let Ok(value) = to_value(alloc, map) else {
        return NO_MEMORY;
    };
    let Ok(text) = value.to_string(alloc) else {
        return NO_MEMORY;
    };
    copy_out(text.as_bytes(), buf, len)
}

// Returns the JSON object of the pairs.
fn to_value<L: JsonKey + Drop, R: JsonValue + Drop, I: WalkedIndex<L>, J: Index<R>>(
    alloc: Global,
    map: &BijectiveMap<L, R, I, J>,
) -> Result<Value, NoMemory>
    ensures object { IfOk result (λ v. IsObjectOf
        (IsEntryOf L.writes_key R.writes (Contains (holding map.now).pairs)) (view v)) }
    ensures reads_back { OnOk result (EachReadsBack L.writes_key R.writes L.reads_key R.reads L.eq
        R.eq (holding map.now).pairs) }
{
    write_walk(alloc, map.iter())
}

/// Reads a text into an empty map, which replaces the map of the table. Returns the status.
pub(crate) fn from_json<B: Bijection<ByteString, u64> + Drop>(
    alloc: Global,
    table: &mut BytesTable<u64, B>,
    empty: B,
    text: &[u8],
) -> u32
    requires empty { (B.holding empty).pairs ≡ [] }
    requires room { (B.holding empty).room ≡ 0 }
    ensures { ReadsJson (kept B.holding table.old) text.now result (kept B.holding table.new) }
{
    let Ok(text) = str::from_utf8(text) else {
        return REFUSED;
    };
    match read_text_with(alloc, empty, text, REFUSE_BOTH) {
        Ok(map) => {
            table.map = map;
            table.struck = Overwritten::Neither;
            DONE
        }
        Err(fault) => read_status(&fault),
    }
}

fn read_status(fault: &JsonFault) -> u32
    ensures { result ≡ read_status fault.now }
{
    match fault {
        JsonFault::Memory => NO_MEMORY,
        _ => REFUSED,
    }
}
