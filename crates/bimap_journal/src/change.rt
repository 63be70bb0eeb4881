//! A change of a map, as a JSON value and back. It does not know the file.
ghost use Rattle.std.specs.Prelude.{◌≡◌, ℕ, List, ◌∷◌, ◌++◌, [], IfOk, OnOk, IfSome, IfNone, map};
ghost use Rattle.serde_json.specs.Data.{Data, Items, array, item, no_items, string};
ghost use Rattle.bimap.specs.JsonReading.{ReadsBack};
ghost use Rattle.serde_json.specs.View.{view, items_view};
ghost use Rattle.bimap_journal.specs.Changes.{Reads, IsReading, insert_of, remove_by_left_of, remove_by_right_of, clear_of};

use crate::stored::Stored;
use bimap::NoMemory;
use bimap::value::ReadFault;
use serde_json::Value;
use std::alloc::Global;

/// A change of a map, as a line of a journal says it.
#[derive(Debug, Drop, Eq, PartialEq)]
pub enum Change<L, R> {
    /// `["insert", LEFT, RIGHT]`: the pair was inserted, and overwrote the pairs with which it shares a value.
    Insert(L, R),
    /// `["remove_by_left", LEFT]`: the pair of the left was removed.
    RemoveByLeft(L),
    /// `["remove_by_right", RIGHT]`: the pair of the right was removed.
    RemoveByRight(R),
    /// `["clear"]`: all pairs were removed.
    Clear,
}

// Returns the items of a change that has this name, and room for two more.
fn named(alloc: Global, name: &str) -> Result<Vec<Value>, NoMemory>
    ensures { IfOk result (λ items. map view items.items ≡ string name.now ∷ []) }
{
    let mut items = Vec::with_capacity(alloc, 3)?;
    let name = String::from_str(alloc, name)?;
    let Ok(()) = items.push(Value::String(name)) else {
        return Err(NoMemory);
    };
    Ok(items)
}

// Returns the items with one more.
fn with(items: Vec<Value>, item: Value) -> Result<Vec<Value>, NoMemory>
    ensures { IfOk result (λ more. more.items ≡ items.items ++ item ∷ []) }
{
    let mut items = items;
    let Ok(()) = items.push(item) else {
        return Err(NoMemory);
    };
    Ok(items)
}

/// Returns the JSON of an insertion.
pub fn insertion<L: Stored, R: Stored>(
    alloc: Global,
    left: &L,
    right: &R,
) -> Result<Value, NoMemory>
    ensures json { IfOk result (λ value. view value
        ≡ insert_of (L.writes left.now) (R.writes right.now)) }
    ensures left { OnOk result (ReadsBack L.eq (L.reads (L.writes left.now)) left.now) }
    ensures right { OnOk result (ReadsBack R.eq (R.reads (R.writes right.now)) right.now) }
{
    let items = with(named(alloc, "insert")?, left.to_stored(alloc)?)?;
    Ok(Value::Array(with(items, right.to_stored(alloc)?)?))
}

/// Returns the JSON of a removal by left.
pub fn removal_by_left<L: Stored>(alloc: Global, left: &L) -> Result<Value, NoMemory>
    ensures json { IfOk result (λ value. view value ≡ remove_by_left_of (L.writes left.now)) }
    ensures left { OnOk result (ReadsBack L.eq (L.reads (L.writes left.now)) left.now) }
{
    let items = with(named(alloc, "remove_by_left")?, left.to_stored(alloc)?)?;
    Ok(Value::Array(items))
}

/// Returns the JSON of a removal by right.
pub fn removal_by_right<R: Stored>(alloc: Global, right: &R) -> Result<Value, NoMemory>
    ensures json { IfOk result (λ value. view value ≡ remove_by_right_of (R.writes right.now)) }
    ensures right { OnOk result (ReadsBack R.eq (R.reads (R.writes right.now)) right.now) }
{
    let items = with(named(alloc, "remove_by_right")?, right.to_stored(alloc)?)?;
    Ok(Value::Array(items))
}

/// Returns the JSON of a removal of all pairs.
pub fn clearing(alloc: Global) -> Result<Value, NoMemory>
    ensures { IfOk result (λ value. view value ≡ clear_of) }
{
    Ok(Value::Array(named(alloc, "clear")?))
}

// Returns the name and the values of a change.
fn parts(value: &Value) -> Option<(&str, &[Value])>
    ensures some { IfSome result (λ parts. view value.now
        ≡ array (item (string parts.0.now) (items_view parts.1.now))) }
    ensures none { IfNone result ((name : List ℕ) (values : Items)
        → view value.now ≡ array (item (string name) values) → ⊥) }
{
    let items = value.as_array()?;
    let [first, values @ ..] = items.as_slice() else {
        return None;
    };
    Some((first.as_str()?, values))
}

// Returns what one value reads as.
fn one<T: Stored + Drop>(alloc: Global, values: &[Value]) -> Result<T, ReadFault>
    ensures { IsReading (λ value. (x : Data) × (items_view values.now ≡ item x no_items)
        × T.reads x value) result }
{
    if values.len() != 1 {
        return Err(ReadFault::Bad);
    }
    T::from_stored(alloc, &values[0])
}

// Returns what two values read as.
fn two<T: Stored + Drop, U: Stored + Drop>(
    alloc: Global,
    values: &[Value],
) -> Result<(T, U), ReadFault>
    ensures { IsReading (λ value. (x y : Data)
        × (items_view values.now ≡ item x (item y no_items))
        × T.reads x value.0 × U.reads y value.1) result }
{
    if values.len() != 2 {
        return Err(ReadFault::Bad);
    }
    let first = T::from_stored(alloc, &values[0])?;
    let second = U::from_stored(alloc, &values[1])?;
    Ok((first, second))
}

/// Returns the change that a JSON value says.
pub fn change_of<L: Stored + Drop, R: Stored + Drop>(
    alloc: Global,
    value: &Value,
) -> Result<Change<L, R>, ReadFault>
    ensures { IsReading (Reads L.reads R.reads (view value.now)) result }
{
    let Some((name, values)) = parts(value) else {
        return Err(ReadFault::Bad);
    };
    if name == "insert" {
        return match two(alloc, values) {
            Ok((left, right)) => Ok(Change::Insert(left, right)),
            Err(fault) => Err(fault),
        };
    }
    if name == "remove_by_left" {
        return match one(alloc, values) {
            Ok(left) => Ok(Change::RemoveByLeft(left)),
            Err(fault) => Err(fault),
        };
    }
    if name == "remove_by_right" {
        return match one(alloc, values) {
            Ok(right) => Ok(Change::RemoveByRight(right)),
            Err(fault) => Err(fault),
        };
    }
    if name == "clear" && values.is_empty() {
        return Ok(Change::Clear);
    }
    Err(ReadFault::Bad)
}
