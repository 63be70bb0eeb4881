//! Examples of JSON.
use super::{Seats, holds, ordered};
use bimap::value::{
    JsonFault, JsonObject, PairsFault, Value, read_into_with, read_pairs, read_text_with, reread,
    write_pairs,
};
use bimap::{BiBTreeMap, BiInsertionOrderMap, NoMemory, OnHeld, Policy};
use std::alloc::Global;
use std::test::Fail;

fn read_once(alloc: Global, value: &Value) -> Result<Seats, JsonFault> {
    let once = Policy {
        left: OnHeld::Refuse,
        right: OnHeld::Refuse,
    };
    let seats = read_into_with(alloc, BiBTreeMap::new(alloc), &value, once)?;
    Ok(seats)
}

fn read_all(alloc: Global, value: &Value) -> Result<Seats, JsonFault> {
    let seats: BiBTreeMap<char, u32> = BiBTreeMap::from_value(alloc, &value)?;
    Ok(seats)
}

#[test]
fn reads_seats(rt: HostRuntime) -> Result<(), Fail> {
    let alloc = rt.alloc();
    let twice = Value::from_str(alloc, r#"{"A": 1, "B": 2, "C": 1}"#)?;
    let once = Value::from_str(alloc, r#"{"A": 1, "B": 2}"#)?;
    assert!(&rt; read_once(alloc, &twice) == Err(JsonFault::RightHeld(2)));
    let later = read_all(alloc, &twice).ok().expect(&rt, "each entry reads");
    assert!(&rt; holds(&later, &[('B', 2), ('C', 1)]));
    let seats = read_once(alloc, &once)
        .ok()
        .expect(&rt, "no seat stands twice");
    assert!(&rt; holds(&seats, &[('A', 1), ('B', 2)]));
    Ok(())
}

fn read_named_once(alloc: Global, text: &str) -> Result<Seats, JsonFault> {
    let once = Policy {
        left: OnHeld::Refuse,
        right: OnHeld::Refuse,
    };
    let seats = read_text_with(alloc, BiBTreeMap::new(alloc), text, once)?;
    Ok(seats)
}

#[test]
fn reads_seats_of_a_text(rt: HostRuntime) {
    let alloc = rt.alloc();
    assert!(&rt;
        read_named_once(alloc, r#"{"A": 1, "B": 2, "A": 3}"#) == Err(JsonFault::NameTwice)
    );
    let seats = read_named_once(alloc, r#"{"B": 2, "A": 1}"#)
        .ok()
        .expect(&rt, "no guest stands twice");
    assert!(&rt; holds(&seats, &[('A', 1), ('B', 2)]));
}

fn written(alloc: Global, seats: &Seats) -> Result<Value, NoMemory> {
    let value = seats.to_value(alloc)?;
    Ok(value)
}

fn reads_back(alloc: Global, seats: Seats) -> Result<bool, JsonFault> {
    let copy = reread(alloc, &seats)?;
    Ok(copy == seats)
}

#[test]
fn writes_seats_and_reads_them_back(rt: HostRuntime) {
    let alloc = rt.alloc();
    let value = written(alloc, &ordered(&rt)).expect(&rt, "memory");
    let text = value.to_string(alloc).expect(&rt, "memory");
    assert!(&rt; text.as_str() == r#"{"a":3,"b":1,"c":2}"#);
    assert!(&rt; reads_back(alloc, ordered(&rt)) == Ok(true));
}

type Positions = BiInsertionOrderMap<char, u32>;

fn pairs_written(alloc: Global, seats: &Positions) -> Result<Value, NoMemory> {
    let value = write_pairs(alloc, seats.iter())?;
    Ok(value)
}

fn pairs_read(alloc: Global, value: &Value) -> Result<Vec<(char, u32)>, PairsFault> {
    let pairs: Vec<(char, u32)> = read_pairs(alloc, &value)?;
    Ok(pairs)
}

#[test]
fn pairs_keep_their_order(rt: HostRuntime) -> Result<(), Fail> {
    let alloc = rt.alloc();
    let value = Value::from_str(alloc, r#"[["c", 2], ["a", 3]]"#)?;
    let pairs = pairs_read(alloc, &value)
        .ok()
        .expect(&rt, "each item reads");
    assert!(&rt; pairs.as_slice() == [('c', 2), ('a', 3)].as_slice());
    let seats = Positions::from_iter(alloc, pairs)
        .ok()
        .expect(&rt, "memory");
    let written = pairs_written(alloc, &seats).expect(&rt, "memory");
    let text = written.to_string(alloc).expect(&rt, "memory");
    assert!(&rt; text.as_str() == r#"[["c",2],["a",3]]"#);
    Ok(())
}
