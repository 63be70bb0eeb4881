//! Each kind of map as a JSON object and back. It does not know how a side is written.
ghost use Rattle.std.specs.Prelude.{◌≡◌, Contains, IfErr, IfOk, OnOk};
ghost use Rattle.serde_json.specs.View.{view};
ghost use Rattle.bimap_any.specs.Same.{IsSame};
ghost use Rattle.bimap_kinds.specs.Held.{holding};
ghost use Rattle.bimap.specs.JsonObjects.{IsObjectOf, IsEntryOf, EachReadsBack, ReadsObject};

use crate::value::object::{JsonFault, JsonObject, read_into, write_walk};
use crate::value::sides::{JsonKey, JsonValue};
use bimap_base::NoMemory;
use bimap_kinds::{BiBTreeHashMap, BiBTreeMap, BiHashBTreeMap, BiHashMap, BiInsertionOrderMap};
use serde_json::Value;
use std::alloc::Global;
use std::hash::{BuildHasher, Hash};

/// Returns the JSON object of the pairs of a `BiHashMap`, whatever its hash builders.
///
/// Time: That of iterating, and of O(n log n) comparisons of keys.
///
/// Memory: It allocates an object with an entry for each pair.
///
/// `Err`: Out of memory. There is no object.
pub fn hash_to_value<
    L: JsonKey + Hash + Drop,
    R: JsonValue + Hash + Drop,
    LS: BuildHasher,
    RS: BuildHasher,
>(alloc: Global, bimap: &BiHashMap<L, R, LS, RS>) -> Result<Value, NoMemory>
    ensures object { IfOk result (λ v. IsObjectOf
        (IsEntryOf L.writes_key R.writes (Contains (holding bimap.now).pairs)) (view v)) }
    ensures reads_back { OnOk result (EachReadsBack L.writes_key R.writes L.reads_key R.reads L.eq
        R.eq (holding bimap.now).pairs) }
{
    write_walk(alloc, bimap.iter())
}

/// Returns the `BiHashMap` of an object's entries, with these hash builders.
///
/// It inserts the entries as [`JsonObject::from_value`] does.
///
/// Time: That of reading and inserting each entry.
///
/// Memory: It allocates as each insertion does, and what reading each side allocates. Nothing is reserved ahead.
///
/// `Err`: The value is no object, an entry cannot be read, or out of memory (`Memory`). There is no map.
pub fn from_value_with_hashers<
    L: JsonKey + Hash + Drop,
    R: JsonValue + Hash + Drop,
    LS: BuildHasher + Drop,
    RS: BuildHasher + Drop,
>(
    alloc: Global,
    left_builder: LS,
    right_builder: RS,
    value: &Value,
) -> Result<BiHashMap<L, R, LS, RS>, JsonFault>
    ensures { ReadsObject L.reads_key R.reads L.eq R.eq holding 0 (view value.now) result }
{
    let empty = BiHashMap::with_hashers(alloc, left_builder, right_builder);
    read_into(alloc, empty, value)
}

/// Writes a `BiHashMap` as an object, reads it back with these hash builders, and returns the equal map.
///
/// Its contract states that what was written reads back equal.
///
/// Time: That of `hash_to_value` and `from_value_with_hashers`.
///
/// Memory: It allocates as `hash_to_value` and `from_value_with_hashers` do.
///
/// `Err`: Out of memory (`Memory`). There is no new map.
pub fn reread_with_hashers<
    L: JsonKey + Hash + Drop,
    R: JsonValue + Hash + Drop,
    LS: BuildHasher,
    RS: BuildHasher,
    NewLS: BuildHasher + Drop,
    NewRS: BuildHasher + Drop,
>(
    alloc: Global,
    left_builder: NewLS,
    right_builder: NewRS,
    bimap: &BiHashMap<L, R, LS, RS>,
) -> Result<BiHashMap<L, R, NewLS, NewRS>, JsonFault>
    ensures same { IfOk result (λ copy. IsSame L.eq R.eq (holding bimap.now).pairs
        (holding copy).pairs) }
    ensures only_memory { IfErr result (λ fault. fault ≡ JsonFault.Memory) }
{
    match hash_to_value(alloc, bimap) {
        Ok(value) => from_value_with_hashers(alloc, left_builder, right_builder, &value),
        Err(NoMemory) => Err(JsonFault::Memory),
    }
}

impl<L: JsonKey + Ord + Drop, R: JsonValue + Ord + Drop> JsonObject<L, R> for BiBTreeMap<L, R> {
    fn to_value(&self, alloc: Global) -> Result<Value, NoMemory> {
        write_walk(alloc, self.iter())
    }

    fn from_value(alloc: Global, value: &Value) -> Result<BiBTreeMap<L, R>, JsonFault> {
        read_into(alloc, BiBTreeMap::new(alloc), value)
    }
}

impl<L: JsonKey + Hash + Drop, R: JsonValue + Hash + Drop> JsonObject<L, R> for BiHashMap<L, R> {
    fn to_value(&self, alloc: Global) -> Result<Value, NoMemory> {
        hash_to_value(alloc, self)
    }

    fn from_value(alloc: Global, value: &Value) -> Result<BiHashMap<L, R>, JsonFault> {
        read_into(alloc, BiHashMap::new(alloc), value)
    }
}

impl<L: JsonKey + Ord + Drop, R: JsonValue + Hash + Drop> JsonObject<L, R>
    for BiBTreeHashMap<L, R> {
    fn to_value(&self, alloc: Global) -> Result<Value, NoMemory> {
        write_walk(alloc, self.iter())
    }

    fn from_value(alloc: Global, value: &Value) -> Result<BiBTreeHashMap<L, R>, JsonFault> {
        read_into(alloc, BiBTreeHashMap::new(alloc), value)
    }
}

impl<L: JsonKey + Hash + Drop, R: JsonValue + Ord + Drop> JsonObject<L, R>
    for BiHashBTreeMap<L, R> {
    fn to_value(&self, alloc: Global) -> Result<Value, NoMemory> {
        write_walk(alloc, self.iter())
    }

    fn from_value(alloc: Global, value: &Value) -> Result<BiHashBTreeMap<L, R>, JsonFault> {
        read_into(alloc, BiHashBTreeMap::new(alloc), value)
    }
}

impl<L: JsonKey + Hash + Drop, R: JsonValue + Hash + Drop> JsonObject<L, R>
    for BiInsertionOrderMap<L, R> {
    fn to_value(&self, alloc: Global) -> Result<Value, NoMemory> {
        write_walk(alloc, self.iter())
    }

    fn from_value(alloc: Global, value: &Value) -> Result<BiInsertionOrderMap<L, R>, JsonFault> {
        read_into(alloc, BiInsertionOrderMap::new(alloc), value)
    }
}
