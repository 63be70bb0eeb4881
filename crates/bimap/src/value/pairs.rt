//! Pairs as a JSON array and back, which keeps their order. It does not know how a side is written.
ghost use Rattle.std.specs.Prelude.{◌≡◌, List, IfOk, IfSome, IfNone, map};
ghost use Rattle.std.specs.Iterator.{Drains, IsFiniteIterable};
ghost use denote.Ref.{Bor};
ghost use Rattle.serde_json.specs.Data.{array};
ghost use Rattle.serde_json.specs.View.{view, items_of};
ghost use Rattle.bimap.specs.JsonObjects.{EachReadsBack, shown_pairs};
ghost use Rattle.bimap.specs.JsonPairs.{IsTwo, ReadsPairs, two};

use crate::value::sides::{JsonValue, ReadFault};
use bimap_base::NoMemory;
use serde_json::Value;
use std::alloc::Global;
use thiserror::Error;

/// Why no pairs were read. An item is named by its number, from 0.
#[derive(Clone, Copy, Debug, Eq, Error, PartialEq)]
pub enum PairsFault {
    /// The value is not an array.
    #[error("not a JSON array")]
    NotAnArray,
    /// The item is not an array of two.
    #[error("item {0}: not an array of two")]
    NotAPair(usize),
    /// The first of the two reads as no left.
    #[error("item {0}: the first is no left")]
    BadLeft(usize),
    /// The first of the two reads as a left, and the second as no right.
    #[error("item {0}: the second is no right")]
    BadRight(usize),
    /// Memory ran out at an item that is not named. This item is an array of two, and its first reads as a left. Items
    /// before it have no fault.
    #[error("out of memory")]
    Memory,
}

// Returns the array of two values.
fn array_of_two(alloc: Global, first: Value, second: Value) -> Result<Value, NoMemory>
    ensures { IfOk result (λ v. view v ≡ two (view first) (view second)) }
{
    let mut items = Vec::with_capacity(alloc, 2)?;
    let (Ok(()), Ok(())) = (items.push(first), items.push(second)) else {
        return Err(NoMemory);
    };
    Ok(Value::Array(items))
}

/// Returns the JSON array of the pairs that an iterator gives, in their order.
///
/// Each pair is an array of its left and its right.
///
/// Condition: The iterator ends. If its `next` has a condition, it is true at each call of `next`.
///
/// Time: O(number of pairs), and that of writing each side.
///
/// Memory: It allocates the array and an array of two for each pair.
///
/// `Err`: Out of memory. There is no array.
///
///     let value = write_pairs(alloc, seats.iter())?;
///     // [["c",2],["a",3]]
pub fn write_pairs<
    'a,
    L: JsonValue + 'a,
    R: JsonValue + 'a,
    I: IntoIterator<Item = (&'a L, &'a R)>,
>(alloc: Global, walk: I) -> Result<Value, NoMemory>
    requires ends { IsFiniteIterable I.into_iter_gives I.IntoIter.can_next
        I.IntoIter.remaining walk }
    ensures { IfOk result (λ v. (it : I.IntoIter) × (items : List (Bor L × Bor R))
        × I.into_iter_gives walk it × Drains I.IntoIter.next_gives it items
        × (view v ≡ array (items_of (map (λ p. two (L.writes p.0) (R.writes p.1))
        (shown_pairs items))))
        × EachReadsBack L.writes R.writes L.reads R.reads L.eq R.eq (shown_pairs items)) }
{
    let mut items = Vec::new(alloc);
    for (left, right) in walk {
        let pair = array_of_two(alloc, left.to_json(alloc)?, right.to_json(alloc)?)?;
        let Ok(()) = items.push(pair) else {
            return Err(NoMemory);
        };
    }
    Ok(Value::Array(items))
}

// Returns the two values of an array of two.
fn as_two(value: &Value) -> Option<(&Value, &Value)>
    ensures is_two { IfSome result (λ p. view value.now ≡ two (view p.0.now) (view p.1.now)) }
    ensures none { IfNone result (¬ IsTwo (view value.now)) }
{
    let items = value.as_array()?;
    if items.len() != 2 {
        return None;
    }
    Some((&items[0], &items[1]))
}

/// Returns the pairs of a JSON array of arrays of two, in their order.
///
/// `from_iter` and `from_iter_with` make a map of them, and a `BiInsertionOrderMap` keeps the order.
///
/// Time: O(length of the array), and that of reading each side.
///
/// Memory: It allocates the `Vec`, and what reading each side allocates.
///
/// `Err`: The value is no array, memory ran out (`Memory`), or an item cannot be read. It names the first such item, and
/// there are no pairs.
///
///     // of [["c", 2], ["a", 3]]
///     let pairs: Vec<(char, u32)> = read_pairs(alloc, &value)?;
///     // ('c', 2) and ('a', 3)
pub fn read_pairs<L: JsonValue + Drop, R: JsonValue + Drop>(
    alloc: Global,
    value: &Value,
) -> Result<Vec<(L, R)>, PairsFault>
    ensures { ReadsPairs L.reads R.reads (view value.now) result }
{
    let Some(items) = value.as_array() else {
        return Err(PairsFault::NotAnArray);
    };
    let mut pairs = Vec::new(alloc);
    for item in items {
        let at = pairs.len();
        let Some((first, second)) = as_two(item) else {
            return Err(PairsFault::NotAPair(at));
        };
        let left = match L::from_json(alloc, first) {
            Ok(left) => left,
            Err(ReadFault::Bad) => return Err(PairsFault::BadLeft(at)),
            Err(ReadFault::Memory) => return Err(PairsFault::Memory),
        };
        let right = match R::from_json(alloc, second) {
            Ok(right) => right,
            Err(ReadFault::Bad) => return Err(PairsFault::BadRight(at)),
            Err(ReadFault::Memory) => return Err(PairsFault::Memory),
        };
        let Ok(()) = pairs.push((left, right)) else {
            return Err(PairsFault::Memory);
        };
    }
    Ok(pairs)
}
