//! Any map as a JSON object and back. It does not know how a side is written.
ghost use Rattle.std.specs.Prelude.{◌≡◌, ◌↔◌, List, [], Contains, IfOk, IfErr, OnOk};
ghost use Rattle.std.specs.Iterator.{Drains, IsFiniteIterable};
ghost use denote.Ref.{Bor};
ghost use Rattle.serde_json.specs.View.{view};
ghost use Rattle.bimap_any.specs.Same.{IsSame};
ghost use Rattle.bimap.specs.JsonObjects.{IsObjectOf, IsEntryOf, IsLastEntryOf, EachReadsBack, FollowEntries, ReadsObject, ReadsObjectUnder, shown_pairs};

use crate::value::sides::{JsonKey, JsonValue, ReadFault};
use bimap_any::Bijection;
use bimap_base::{NoMemory, NotInsertedWith, OnHeld, Policy};
use serde_json::{Map, Value};
use std::alloc::Global;
use std::mem;
use thiserror::Error;

/// Why no map was read. An entry is named by its number, from 0, in ascending byte order of the keys.
#[derive(Clone, Copy, Debug, Eq, Error, PartialEq)]
pub enum JsonFault {
    /// The text is no JSON, has a number beyond the range of `f64`, or has more than 127 levels of arrays and
    /// objects.
    #[error("not JSON")]
    NotJson,
    /// An object in the text has the same name twice, and `policy.left` is `Refuse`. This includes objects inside
    /// a value.
    #[error("a name stands twice in an object")]
    NameTwice,
    /// The value is not an object.
    #[error("not a JSON object")]
    NotAnObject,
    /// The key reads as no left.
    #[error("entry {0}: the key is no left")]
    BadKey(usize),
    /// The key reads as a left, and the value as no right.
    #[error("entry {0}: the value is no right")]
    BadValue(usize),
    /// The map contains the left by then, and the policy refuses to overwrite it. The left is checked first.
    #[error("entry {0}: the left is already contained")]
    LeftHeld(usize),
    /// The map contains the right by then, and the policy refuses to overwrite it.
    #[error("entry {0}: the right is already contained")]
    RightHeld(usize),
    /// Memory ran out while a text was parsed, or at an entry. In the second case earlier entries have no fault, and
    /// this key reads as a left.
    #[error("out of memory")]
    Memory,
}

/// A map as a JSON object, with an entry for each pair. The key of an entry is the left, and its value is the right.
pub trait JsonObject<L: JsonKey + Drop, R: JsonValue + Drop>: Bijection<L, R> + Sized {
    /// Returns the JSON object of the pairs.
    ///
    /// Each entry reads as a pair that equals the one from which it was written, on both sides.
    ///
    /// Time: That of iterating, and of O(n log n) comparisons of keys.
    ///
    /// Memory: It allocates an object with an entry for each pair.
    ///
    /// `Err`: Out of memory. There is no object.
    ///
    ///     let value = seats.to_value(alloc)?;
    ///     // {"a":3,"b":1,"c":2}
    fn to_value(&self, alloc: Global) -> Result<Value, NoMemory>
        ensures object { IfOk result (λ v. IsObjectOf
            (IsEntryOf L.writes_key R.writes (Contains (Self.holding self.now).pairs)) (view v)) }
        ensures reads_back { OnOk result (EachReadsBack L.writes_key R.writes L.reads_key R.reads
            L.eq R.eq (Self.holding self.now).pairs) };

    /// Returns the map of an object's entries.
    ///
    /// It inserts them in ascending byte order of their keys. An entry overwrites the earlier ones with which it shares
    /// a value. A `BiInsertionOrderMap` keeps this order.
    ///
    /// Time: That of reading and inserting each entry.
    ///
    /// Memory: It allocates as each insertion does, and what reading each side allocates. Nothing is reserved ahead.
    ///
    /// `Err`: The value is no object, an entry cannot be read, or out of memory (`Memory`). There is no map.
    ///
    ///     // of {"A": 1, "B": 2, "C": 1}
    ///     let seats: BiBTreeMap<char, u32> = BiBTreeMap::from_value(alloc, &value)?;
    ///     // ('B', 2) and ('C', 1)
    fn from_value(alloc: Global, value: &Value) -> Result<Self, JsonFault>
        ensures read { ReadsObject L.reads_key R.reads L.eq R.eq Self.holding 0
            (view value.now) result }
        ensures position { Self.appends → IfOk result (λ bimap. FollowEntries L.reads_key R.reads
            (view value.now) (Self.holding bimap).pairs) };
}

/// Returns the JSON object of the pairs that an iterator gives.
///
/// Of several pairs with the same key, it has the last.
///
/// Condition: The iterator ends. If its `next` has a condition, it is true at each call of `next`.
///
/// Time: That of iterating, and of O(n log n) comparisons of keys.
///
/// Memory: It allocates an object with an entry for each pair.
///
/// `Err`: Out of memory. There is no object.
pub fn write_walk<'a, L: JsonKey + 'a, R: JsonValue + 'a, I: IntoIterator<Item = (&'a L, &'a R)>>(
    alloc: Global,
    walk: I,
) -> Result<Value, NoMemory>
    requires ends { IsFiniteIterable I.into_iter_gives I.IntoIter.can_next
        I.IntoIter.remaining walk }
    ensures { IfOk result (λ v. (it : I.IntoIter) × (items : List (Bor L × Bor R))
        × I.into_iter_gives walk it × Drains I.IntoIter.next_gives it items
        × IsObjectOf (IsLastEntryOf L.writes_key R.writes (shown_pairs items)) (view v)
        × EachReadsBack L.writes_key R.writes L.reads_key R.reads L.eq R.eq (shown_pairs items)) }
{
    let mut map = Map::new(alloc);
    for (left, right) in walk {
        let key = left.to_key(alloc)?;
        let value = right.to_json(alloc)?;
        match map.insert(key, value) {
            Ok(replaced) => mem::drop(replaced),
            Err(_) => return Err(NoMemory),
        }
    }
    Ok(Value::Object(map))
}

/// Inserts an object's entries into an empty map, and returns the map.
///
/// It inserts the entries as [`JsonObject::from_value`] does.
///
/// Condition: `empty` contains no pair.
///
/// Time: That of reading and inserting each entry.
///
/// Memory: It allocates as each insertion does, and what reading each side allocates. Nothing is reserved ahead.
///
/// `Err`: The value is no object, an entry cannot be read, or out of memory (`Memory`). The map is dropped.
pub fn read_into<L: JsonKey + Drop, R: JsonValue + Drop, B: Bijection<L, R> + Drop>(
    alloc: Global,
    empty: B,
    value: &Value,
) -> Result<B, JsonFault>
    requires empty { (B.holding empty).pairs ≡ [] }
    ensures read { ReadsObject L.reads_key R.reads L.eq R.eq B.holding (B.holding empty).room
        (view value.now) result }
    ensures position { B.appends → IfOk result (λ bimap. FollowEntries L.reads_key R.reads
        (view value.now) (B.holding bimap).pairs) }
{
    let policy = Policy {
        left: OnHeld::Overwrite,
        right: OnHeld::Overwrite,
    };
    read_into_with(alloc, empty, value, policy)
}

/// Inserts an object's entries into an empty map under the policy, and returns the map.
///
/// It inserts the entries in ascending byte order of their keys.
///
/// Condition: `empty` contains no pair.
///
/// Time: That of reading and inserting each entry.
///
/// Memory: It allocates as each insertion does, and what reading each side allocates. Nothing is reserved ahead.
///
/// `Err`: The value is no object, an entry cannot be read or is refused, or out of memory (`Memory`). The map is
/// dropped.
///
///     // no seat twice: {"A": 1, "B": 2, "C": 1} gives Err(JsonFault::RightHeld(2))
///     let once = Policy { left: OnHeld::Refuse, right: OnHeld::Refuse };
///     let seats = read_into_with(alloc, BiBTreeMap::new(alloc), &value, once)?;
pub fn read_into_with<L: JsonKey + Drop, R: JsonValue + Drop, B: Bijection<L, R> + Drop>(
    alloc: Global,
    empty: B,
    value: &Value,
    policy: Policy,
) -> Result<B, JsonFault>
    requires empty { (B.holding empty).pairs ≡ [] }
    ensures read { ReadsObjectUnder L.reads_key R.reads L.eq R.eq B.holding (B.holding empty).room
        (view value.now) policy result }
    ensures position { B.appends → IfOk result (λ bimap. FollowEntries L.reads_key R.reads
        (view value.now) (B.holding bimap).pairs) }
{
    let Some(map) = value.as_object() else {
        return Err(JsonFault::NotAnObject);
    };
    let mut bimap = empty;
    let mut at = 0usize;
    let mut entries = map.iter();
    while let Some((key, value)) = entries.next() {
        let left = match L::from_key(alloc, key.as_str()) {
            Ok(left) => left,
            Err(ReadFault::Bad) => return Err(JsonFault::BadKey(at)),
            Err(ReadFault::Memory) => return Err(JsonFault::Memory),
        };
        let right = match R::from_json(alloc, value) {
            Ok(right) => right,
            Err(ReadFault::Bad) => return Err(JsonFault::BadValue(at)),
            Err(ReadFault::Memory) => return Err(JsonFault::Memory),
        };
        match bimap.insert_with(left, right, policy) {
            Ok(struck) => mem::drop(struck),
            Err(NotInsertedWith::LeftHeld(_, _)) => return Err(JsonFault::LeftHeld(at)),
            Err(NotInsertedWith::RightHeld(_, _)) => return Err(JsonFault::RightHeld(at)),
            Err(NotInsertedWith::Memory(_, _)) => return Err(JsonFault::Memory),
        }
        at += 1;
    }
    Ok(bimap)
}

/// Writes a map as an object, reads it back, and returns the equal map.
///
/// Its contract states that what was written reads back equal.
///
/// Time: That of `to_value` and `from_value`.
///
/// Memory: It allocates as `to_value` and `from_value` do.
///
/// `Err`: Out of memory (`Memory`). There is no new map.
///
///     let copy = reread(alloc, &seats)?;
///     // copy equals seats
pub fn reread<L: JsonKey + Drop, R: JsonValue + Drop, B: JsonObject<L, R> + Drop>(
    alloc: Global,
    bimap: &B,
) -> Result<B, JsonFault>
    ensures same { IfOk result (λ copy. IsSame L.eq R.eq (B.holding bimap.now).pairs
        (B.holding copy).pairs) }
    ensures only_memory { IfErr result (λ fault. fault ≡ JsonFault.Memory) }
{
    match bimap.to_value(alloc) {
        Ok(value) => B::from_value(alloc, &value),
        Err(NoMemory) => Err(JsonFault::Memory),
    }
}
