//! Seats on both sides of a map that is not one of the library's, and a large map with hash builders that are handed
//! in.
use crate::Seat;
use bimap::BiHashMap;
use bimap::value::{
    JsonFault, JsonKey, JsonValue, Value, from_value_with_hashers, hash_to_value, read_into,
    reread_with_hashers,
};
use std::alloc::Global;
use std::hash::{BuildHasherDefault, FoldHasher};
use std::process::Abort;
use test_support::{Plain, shows};

fn seats(rt: &impl Abort, alloc: Global, text: &str) -> Result<Plain<Seat, Seat>, JsonFault> {
    let value = Value::from_str(alloc, text).expect(rt, "JSON");
    read_into(alloc, Plain::new(alloc), &value)
}

fn seat(number: u8) -> Seat {
    Seat { number }
}

#[test]
fn sides_of_ones_own(rt: HostRuntime) {
    let alloc = rt.alloc();
    let read = seats(&rt, alloc, r#"{"255":0,"7":255}"#).expect(&rt, "seats");
    assert!(rt; shows(&read, &[(seat(255), seat(0)), (seat(7), seat(255))]));
    let key = seat(255).to_key(alloc).expect(&rt, "memory");
    assert_eq!(rt; key.as_str(), "255");
    let value = seat(7).to_json(alloc).expect(&rt, "memory");
    assert_eq!(rt; value.as_u64(), Some(7));
}

#[test]
fn faults_of_sides_of_ones_own(rt: HostRuntime) {
    for (text, fault) in [
        ("[]", JsonFault::NotAnObject),
        (r#"{"256":1}"#, JsonFault::BadKey(0)),
        (r#"{"07":1}"#, JsonFault::BadKey(0)),
        (r#"{"1":1,"2":256}"#, JsonFault::BadValue(1)),
        (r#"{"1":"1"}"#, JsonFault::BadValue(0)),
    ] {
        assert_eq!(rt; seats(&rt, rt.alloc(), text).err(), Some(fault), "{text}");
    }
}

type Numbers = BiHashMap<u32, u32>;

fn builder() -> BuildHasherDefault<FoldHasher> {
    BuildHasherDefault::new()
}

// Returns a map of 70 000 pairs, more than a `u16` can count.
fn many(rt: &impl Abort, alloc: Global) -> Numbers {
    let items = (0..70_000u32).map(|at| (at, at ^ 1));
    let made = BiHashMap::from_iter_with_hashers(alloc, builder(), builder(), items);
    made.ok().expect(rt, "memory")
}

// Writes the map as an object, and reads a map from it.
fn read_back(rt: &impl Abort, alloc: Global, numbers: &Numbers) -> Numbers {
    let value = hash_to_value(alloc, numbers).expect(rt, "memory");
    from_value_with_hashers(alloc, builder(), builder(), &value).expect(rt, "memory")
}

#[test]
fn builders_are_handed_in(rt: HostRuntime) {
    let alloc = rt.alloc();
    let read = read_back(&rt, alloc, &many(&rt, alloc));
    let again: Numbers = reread_with_hashers(alloc, builder(), builder(), &read).expect(
        &rt, "memory",
    );
    assert_eq!(rt; (read.len(), again.len()), (70_000, 70_000));
    assert_eq!(rt; (read.capacity(), again.capacity()), (131_072, 131_072));
}
