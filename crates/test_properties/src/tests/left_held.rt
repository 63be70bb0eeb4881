//! Objects in which two key texts read as equal lefts. No type of the standard library has such texts, so this file
//! defines its own left. The map is not one of the library's either.
ghost use Rattle.std.specs.Prelude.{◌==◌, ◌/◌, decimal};
ghost use Rattle.std.proofs.Common.{rules};
ghost use Rattle.std.specs.Cmp.Rules.{comparing};
ghost use Rattle.bimap.specs.JsonTexts.{IsUnsignedText};

use bimap::value::{JsonFault, JsonKey, ReadFault, Value, read_into_with};
use bimap::{Bijection, NoMemory, Policy};
use std::alloc::Global;
use std::process::Abort;
use test_support::{KEEP_LEFT, KEEP_RIGHT, ONCE, OVERWRITE, Plain};

// A seat at a table of ten. Two seats are equal if they are at the same table. JSON shows a seat as its number.
#[derive(Debug, Drop)]
struct TableSeat {
    number: u8,
}

impl PartialEq for TableSeat {
    ghost eq = { λ x y. (x.number / 10) == (y.number / 10) };

    ghost laws = { Prim.search (comparing, rules) };

    fn eq(&self, other: &Self) -> bool {
        self.number / 10 == other.number / 10
    }
}

impl Eq for TableSeat {
    ghost laws = { Prim.search (comparing, rules) };
}

impl JsonKey for TableSeat {
    ghost writes_key = { λ seat. decimal seat.number };

    ghost reads_key = { λ text seat. IsUnsignedText 8 text seat.number };

    fn to_key(&self, alloc: Global) -> Result<String, NoMemory> {
        Ok(self.number.to_key(alloc)?)
    }

    fn from_key(alloc: Global, text: &str) -> Result<TableSeat, ReadFault> {
        let number = u8::from_key(alloc, text)?;
        Ok(TableSeat { number })
    }
}

/// A text and a policy, with the error or the pairs that the map then contains.
type Row = (&'static str, Policy, Result<&'static [(u8, u8)], JsonFault>);

// The keys of an object ascend by their bytes: 2 comes after 12 and 19.
const ROWS: [Row; 11] = [
    (
        r#"{"1":1,"12":2,"20":3}"#,
        ONCE,
        Ok(&[(1, 1), (12, 2), (20, 3)]),
    ),
    (
        r#"{"1":1,"12":2,"19":3}"#,
        ONCE,
        Err(JsonFault::LeftHeld(2)),
    ),
    (
        r#"{"12":1,"19":2,"20":2}"#,
        ONCE,
        Err(JsonFault::LeftHeld(1)),
    ),
    (r#"{"12":1,"19":1}"#, ONCE, Err(JsonFault::LeftHeld(1))),
    (r#"{"12":1,"19":256}"#, ONCE, Err(JsonFault::BadValue(1))),
    (
        r#"{"12":1,"20":1,"21":1}"#,
        KEEP_LEFT,
        Err(JsonFault::LeftHeld(2)),
    ),
    (r#"{"12":1,"20":1}"#, KEEP_LEFT, Ok(&[(20, 1)])),
    (r#"{"1":5,"12":5,"2":6}"#, KEEP_LEFT, Ok(&[(12, 5), (2, 6)])),
    (r#"{"12":1,"19":2}"#, KEEP_RIGHT, Ok(&[(19, 2)])),
    (
        r#"{"12":1,"19":2,"20":2}"#,
        KEEP_RIGHT,
        Err(JsonFault::RightHeld(2)),
    ),
    (r#"{"12":1,"19":1}"#, OVERWRITE, Ok(&[(19, 1)])),
];

// Returns whether the map contains exactly these pairs, with exactly these numbers.
fn holds(bimap: &Plain<TableSeat, u8>, pairs: &[(u8, u8)]) -> bool {
    for &(number, right) in pairs {
        match bimap.get_by_right(&right) {
            Some(seat) if seat.number == number => {}
            _ => return false,
        }
    }
    bimap.len() == pairs.len()
}

fn reads(
    rt: &impl Abort,
    alloc: Global,
    text: &str,
    policy: Policy,
    wanted: Result<&[(u8, u8)], JsonFault>,
) {
    let value = Value::from_str(alloc, text).expect(rt, "JSON");
    match (
        read_into_with(alloc, Plain::new(alloc), &value, policy),
        wanted,
    ) {
        (Ok(bimap), Ok(held)) => assert!(rt; holds(&bimap, held), "{text}"),
        (Err(fault), Err(named)) => assert_eq!(rt; fault, named, "{text}"),
        (_, _) => assert!(rt; false, "{text}"),
    }
}

#[test]
fn the_first_left_kept_out_is_named(rt: HostRuntime) {
    for (text, policy, wanted) in ROWS {
        reads(&rt, rt.alloc(), text, policy, wanted);
    }
}
