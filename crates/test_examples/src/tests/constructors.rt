//! Examples of making a map. Each example has a test of its own, because a function that names several kinds of map
//! takes minutes to prove.
use super::{PAIRS, Seats, holds, ordered};
use bimap::{
    BiBTreeHashMap, BiBTreeMap, BiHashBTreeMap, BiHashMap, BiInsertionOrderMap, NoMemory,
    NotInverted, Overwritten, Seeded,
};
use std::alloc::Global;
use std::hash::RandomState;
use std::process::Abort;
use std::test::Fail;

#[test]
fn makes_without_places(rt: HostRuntime) {
    let alloc = rt.alloc();
    let seats: BiBTreeMap<char, u32> = BiBTreeMap::new(alloc);
    assert!(&rt; seats.capacity() == 0);
}

#[test]
fn makes_empty(rt: HostRuntime) {
    let alloc = rt.alloc();
    let seats: BiHashMap<char, u32> = BiHashMap::empty(alloc);
    assert!(&rt; seats.len() == 0);
}

fn with_places(rt: &impl Abort, alloc: Global) -> Result<(), NoMemory> {
    let seats: BiBTreeMap<char, u32> = BiBTreeMap::with_capacity(alloc, 16)?;
    assert!(rt; seats.capacity() == 16);
    Ok(())
}

#[test]
fn makes_with_places(rt: HostRuntime) {
    assert!(&rt; with_places(&rt, rt.alloc()) == Ok(()));
}

#[test]
fn makes_of_items(rt: HostRuntime) -> Result<(), Fail> {
    let alloc = rt.alloc();
    let seats: BiBTreeMap<char, u32> = BiBTreeMap::from_iter(
        alloc,
        [('a', 3), ('b', 1), ('c', 2)],
    )?;
    assert!(&rt; holds(&seats, &PAIRS));
    Ok(())
}

fn copied(rt: &impl Abort, seats: Seats) -> Result<(), NoMemory> {
    assert!(rt; seats.clone()? == seats);
    Ok(())
}

#[test]
fn copies(rt: HostRuntime) {
    assert!(&rt; copied(&rt, ordered(&rt)) == Ok(()));
}

fn turned(rt: &impl Abort, seats: Seats) -> Result<(), NotInverted<Seats>> {
    let turned = seats.into_inverse()?;
    assert!(rt; turned.get_by_left(&3) == Some(&'a'));
    assert!(rt; turned.capacity() == 4);
    Ok(())
}

#[test]
fn turns_round(rt: HostRuntime) {
    assert!(&rt; turned(&rt, ordered(&rt)).is_ok());
}

#[test]
fn makes_under_handed_builders(rt: HostRuntime) -> Result<(), Fail> {
    let alloc = rt.alloc();
    let (left, right) = (RandomState::new(&rt)?, RandomState::new(&rt)?);
    let mut seats = BiHashMap::with_hashers(alloc, left, right);
    assert!(&rt; seats.insert('a', 3) == Ok(Overwritten::Neither));
    Ok(())
}

#[test]
fn makes_places_under_handed_builders(rt: HostRuntime) -> Result<(), Fail> {
    let alloc = rt.alloc();
    let (left, right) = (RandomState::new(&rt)?, RandomState::new(&rt)?);
    let seats: BiHashMap<char, u32, RandomState, RandomState> =
        BiHashMap::with_capacity_and_hashers(alloc, 16, left, right)?;
    assert!(&rt; seats.capacity() == 16);
    Ok(())
}

#[test]
fn makes_of_items_under_handed_builders(rt: HostRuntime) -> Result<(), Fail> {
    let alloc = rt.alloc();
    let (left, right) = (RandomState::new(&rt)?, RandomState::new(&rt)?);
    let seats = BiHashMap::from_iter_with_hashers(alloc, left, right, [('a', 3), ('b', 1)])?;
    assert!(&rt; seats.len() == 2);
    Ok(())
}

#[test]
fn makes_under_a_handed_right_builder(rt: HostRuntime) -> Result<(), Fail> {
    let alloc = rt.alloc();
    let mut seats = BiBTreeHashMap::with_hasher(alloc, RandomState::new(&rt)?);
    assert!(&rt; seats.insert('a', 3) == Ok(Overwritten::Neither));
    Ok(())
}

#[test]
fn makes_under_a_handed_left_builder(rt: HostRuntime) -> Result<(), Fail> {
    let alloc = rt.alloc();
    let mut seats = BiHashBTreeMap::with_hasher(alloc, RandomState::new(&rt)?);
    assert!(&rt; seats.insert('a', 3) == Ok(Overwritten::Neither));
    Ok(())
}

#[test]
fn makes_in_insertion_order_under_handed_builders(rt: HostRuntime) -> Result<(), Fail> {
    let alloc = rt.alloc();
    let (left, right) = (RandomState::new(&rt)?, RandomState::new(&rt)?);
    let mut seats = BiInsertionOrderMap::with_hashers(alloc, left, right);
    assert!(&rt; seats.insert('a', 3) == Ok(Overwritten::Neither));
    Ok(())
}

#[test]
fn makes_under_seeds(rt: HostRuntime) {
    let alloc = rt.alloc();
    let mut seats = BiHashMap::with_hashers(alloc, Seeded::new(1), Seeded::new(1));
    assert!(&rt; seats.insert('a', 3) == Ok(Overwritten::Neither));
}
