//! Reads pairs from a JSON array and writes them as a JSON array.
use crate::json::JsonCall;
use bimap::value::{JsonValue, read_pairs, write_pairs};
use bimap::{
    BiBTreeHashMap, BiBTreeMap, BiHashBTreeMap, BiHashMap, BiInsertionOrderMap, BijectiveMap,
    WalkedIndex, extend_with,
};
use serde_json::Value;
use std::alloc::AllocError;
use std::fmt::Debug;
use std::hash::Hash;

// Reads the pairs of the text into an empty map, and writes them in the order of its iterator.
fn both_ways<
    L: JsonValue + Debug + Drop,
    R: JsonValue + Debug + Drop,
    I: WalkedIndex<L> + Drop,
    J: WalkedIndex<R> + Drop,
>(
    empty: BijectiveMap<L, R, I, J>,
    text: &str,
    request: &JsonCall<'_>,
    said: &mut String,
) -> Result<(), AllocError> {
    let mut bimap = empty;
    let Ok(value) = Value::from_str(request.alloc, text) else {
        return write!(said, "no JSON");
    };
    let pairs: Vec<(L, R)> = match read_pairs(request.alloc, &value) {
        Ok(pairs) => pairs,
        Err(fault) => return write!(said, "Err({fault:?})"),
    };
    if let Err(refused) = extend_with(&mut bimap, pairs, request.policy) {
        return write!(said, "Err({refused:?})");
    }
    match write_pairs(request.alloc, bimap.iter()) {
        Ok(value) => write!(said, "Ok({value})"),
        Err(refused) => write!(said, "Err({refused:?})"),
    }
}

/// Reads and writes pairs by the type of map of this number. Returns whether there is such a type of map.
pub fn pairs_of_kind<
    L: JsonValue + Debug + Ord + Hash + Drop,
    R: JsonValue + Debug + Ord + Hash + Drop,
>(kind: usize, text: &str, request: &JsonCall<'_>, said: &mut String) -> Result<bool, AllocError> {
    let alloc = request.alloc;
    match kind {
        0 => both_ways(BiBTreeMap::<L, R>::new(alloc), text, request, said)?,
        1 => both_ways(BiHashMap::<L, R>::new(alloc), text, request, said)?,
        2 => both_ways(BiBTreeHashMap::<L, R>::new(alloc), text, request, said)?,
        3 => both_ways(BiHashBTreeMap::<L, R>::new(alloc), text, request, said)?,
        5 => both_ways(BiInsertionOrderMap::<L, R>::new(alloc), text, request, said)?,
        _ => return Ok(false),
    }
    Ok(true)
}
