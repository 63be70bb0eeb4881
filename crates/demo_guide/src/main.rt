//! The examples of docs/GUIDE.md: the whole program in `main`, and one function for each other section.
#![tactic(auto)]

ghost use Rattle.std.proofs.Common.{ap, sym};
ghost use Rattle.std.specs.Cmp.Lexicographic.{nat_list_eq_equiv, nat_list_cmp_total, slice_cmp, texts_ties, bytes_decides};
ghost use Rattle.std.specs.Hash as fed;
ghost use Rattle.std.specs.Ordering.{nat_cmp};
ghost use Rattle.std.specs.Str.{bytes_eq};
ghost use Rattle.std.specs.Prelude.{string_bytes};
ghost use Rattle.bimap.specs.QueryLaws.{respects_equal, follows_itself};

use anyhow::Result;
use bimap::BiBTreeMap;

// For the other sections.
use bimap::value::{JsonObject, Value, read_pairs, read_text_with, write_pairs};
use bimap::{
    BiHashBTreeMap, BiHashMap, BiInsertionOrderMap, Bijection, By, Call, HashQuery, OnHeld,
    OrderQuery, Overwritten, Policy, Query, extend_with, replace_left, run, swap_partners,
};
use bimap_undo::Undoable;
use std::cmp::Ordering;
use std::ops::Bound;

// Make a map
fn make(rt: &(impl Print + AllocGlobal)) -> Result<()> {
    let mut seats: BiBTreeMap<&str, u32> = BiBTreeMap::new(rt.alloc());
    println!(rt; "{seats:?} {}", seats.is_empty())?; // {} true
    seats.extend([("bob", 7), ("ann", 12)])?;
    println!(rt; "{seats:?}")?; // {"ann" <> 12, "bob" <> 7}
    let codes: BiHashMap<&str, u32> = BiHashMap::from_iter(
        rt.alloc(),
        [("ok", 200), ("gone", 410)],
    )?;
    println!(rt; "{}", codes.len())?; // 2
    Ok(())
}

// Look up
fn look_up(rt: &(impl Print + AllocGlobal)) -> Result<()> {
    let seats = BiBTreeMap::from_iter(rt.alloc(), [("ann", 12u32), ("bob", 7)])?;
    println!(rt; "{:?}", seats.get_by_left("ann"))?; // Some(12)
    println!(rt; "{:?}", seats.get_by_right(&7))?; // Some("bob")
    println!(rt; "{:?}", seats.get_by_left("cat"))?; // None
    println!(rt; "{}", seats.contains_right(&12))?; // true
    Ok(())
}

// Insert
fn insert(rt: &(impl Print + AllocGlobal)) -> Result<()> {
    let mut seats = BiBTreeMap::from_iter(rt.alloc(), [("ann", 12u32), ("bob", 7)])?;
    println!(rt; "{:?}", seats.insert("ann", 7))?; // Ok(Both(("ann", 12), ("bob", 7)))
    println!(rt; "{:?}", seats.insert("cat", 3)?.did_overwrite())?; // false
    println!(rt; "{:?}", seats.insert_no_overwrite("dan", 3))?; // Err(Occupied("dan", 3))
    println!(rt; "{seats:?}")?; // {"ann" <> 7, "cat" <> 3}
    if let Overwritten::Left(guest, seat) = seats.insert("cat", 5)? {
        println!(rt; "{guest} had the seat {seat}")?; // cat had the seat 3
    }
    Ok(())
}

// Policies
fn policies(rt: &(impl Print + AllocGlobal)) -> Result<()> {
    let mut seats = BiBTreeMap::from_iter(rt.alloc(), [("ann", 12u32), ("bob", 7)])?;
    // A guest may change seats. Nobody may take the seat of another guest.
    let policy = Policy {
        left: OnHeld::Overwrite,
        right: OnHeld::Refuse,
    };
    println!(rt; "{:?}", seats.insert_with("ann", 3, policy))?; // Ok(Left("ann", 12))
    println!(rt; "{:?}", seats.insert_with("ann", 7, policy))?; // Err(RightHeld("ann", 7))
    println!(rt;
        "{:?}",
        extend_with(&mut seats, [("cat", 9), ("dan", 3)], policy)
    )?; // Err(ItemRefused { taken: 1, why: RightHeld("dan", 3) })
    println!(rt; "{seats:?}")?; // {"ann" <> 3, "bob" <> 7, "cat" <> 9}
    Ok(())
}

// Remove and retain
fn remove(rt: &(impl Print + AllocGlobal)) -> Result<()> {
    let mut seats = BiBTreeMap::from_iter(rt.alloc(), [("ann", 12u32), ("bob", 7), ("cat", 3)])?;
    println!(rt; "{:?}", seats.remove_by_left("ann"))?; // Some(("ann", 12))
    println!(rt; "{:?}", seats.remove_by_right(&12))?; // None
    seats.retain(|_: &&str, seat: &u32| *seat < 5);
    println!(rt; "{seats:?}")?; // {"cat" <> 3}
    println!(rt; "{:?}", replace_left(&mut seats, &"cat", "cleo"))?; // Ok("cat")
    seats.clear();
    println!(rt; "{}", seats.len())?; // 0
    Ok(())
}

// Iterate, and ranges
fn iterate(rt: &(impl Print + AllocGlobal)) -> Result<()> {
    let seats = BiBTreeMap::from_iter(rt.alloc(), [("ann", 12u32), ("bob", 7), ("cat", 3)])?;
    for (guest, seat) in seats.iter() {
        print!(rt; "{guest} {seat}, ")?;
    }
    println!(rt; "{} in all", seats.iter().len())?; // ann 12, bob 7, cat 3, 3 in all
    println!(rt; "{:?}", seats.right_range(5..).next())?; // Some(("bob", 7))
    println!(rt;
        "{:?}",
        seats
            .left_range_between(Bound::Unbounded, Bound::Excluded("cat"))
            .next_back()
    )?; // Some(("bob", 7))
    println!(rt; "{:?} {}", seats.first_by_right(), seats.left_rank("cat"))?; // Some(("cat", 3)) 2
    let mut queue: BiInsertionOrderMap<&str, u32> = BiInsertionOrderMap::from_iter(
        rt.alloc(),
        [("cat", 3), ("ann", 12)],
    )?;
    queue.insert("cat", 4)?;
    println!(rt; "{queue:?}")?; // {"cat" <> 4, "ann" <> 12}
    Ok(())
}

// Insertion order
// A list of the two names that were used last.
fn use_name(
    recent: &mut BiInsertionOrderMap<&'static str, u32>,
    name: &'static str,
    number: u32,
) -> Result<()> {
    if !recent.to_back(name) {
        recent.insert(name, number)?;
    }
    if recent.len() > 2 {
        recent.pop_first();
    }
    Ok(())
}

fn in_order(rt: &(impl Print + AllocGlobal)) -> Result<()> {
    let mut recent: BiInsertionOrderMap<&str, u32> = BiInsertionOrderMap::new(rt.alloc());
    use_name(&mut recent, "ann", 12)?;
    use_name(&mut recent, "bob", 7)?;
    use_name(&mut recent, "ann", 12)?;
    use_name(&mut recent, "cat", 3)?;
    println!(rt; "{recent:?}")?; // {"ann" <> 12, "cat" <> 3}
    println!(rt; "{:?} {:?}", recent.first(), recent.last())?; // Some(("ann", 12)) Some(("cat", 3))
    println!(rt;
        "{} {:?}",
        recent.to_front("cat"),
        recent.iter().next_back()
    )?; // true Some(("ann", 12))
    Ok(())
}

// Capacity, and running out of memory
fn capacity(rt: &(impl Print + AllocGlobal)) -> Result<()> {
    let mut seats: BiHashMap<&str, u32> = BiHashMap::with_capacity(rt.alloc(), 2)?;
    seats.insert("ann", 12)?;
    seats.insert("bob", 7)?;
    println!(rt; "{} of {}", seats.len(), seats.capacity())?; // 2 of 2
    // There is no spare capacity, and this insertion overwrites: it cannot run out of memory.
    println!(rt; "{:?}", seats.insert("ann", 7).is_ok())?; // true
    seats.reserve(9)?;
    println!(rt; "{}", seats.capacity())?; // 10
    seats.shrink_to_fit()?;
    println!(rt; "{}", seats.capacity())?; // 1
    Ok(())
}

// Whole maps
fn whole(rt: &(impl Print + AllocGlobal)) -> Result<()> {
    let mut seats = BiBTreeMap::from_iter(rt.alloc(), [("ann", 12u32), ("bob", 7)])?;
    let copy = seats.clone()?;
    println!(rt; "{}", copy == seats)?; // true
    println!(rt; "{:?}", swap_partners(&mut seats, &"ann", &"bob"))?; // Ok(())
    println!(rt; "{seats:?} {}", copy == seats)?; // {"ann" <> 7, "bob" <> 12} false
    println!(rt; "{:?}", copy.into_inverse()?)?; // {7 <> "bob", 12 <> "ann"}
    Ok(())
}

// JSON
fn json(rt: &(impl Print + AllocGlobal)) -> Result<()> {
    let alloc = rt.alloc();
    let codes: BiBTreeMap<char, u32> = BiBTreeMap::from_iter(alloc, [('b', 2), ('a', 1)])?;
    let value = codes.to_value(alloc)?;
    println!(rt; "{}", value.to_string(alloc)?)?; // {"a":1,"b":2}
    println!(rt; "{}", BiBTreeMap::from_value(alloc, &value)? == codes)?; // true
    let once = Policy {
        left: OnHeld::Refuse,
        right: OnHeld::Refuse,
    };
    let read = read_text_with(
        alloc,
        BiBTreeMap::<char, u32>::new(alloc),
        r#"{"a": 5, "b": 5}"#,
        once,
    );
    println!(rt; "{:?}", read.err())?; // Some(RightHeld(1))
    println!(rt; "{}", write_pairs(alloc, codes.iter())?.to_string(alloc)?)?; // [["a",1],["b",2]]
    let pairs: Vec<(char, u32)> = read_pairs(alloc, &Value::from_str(alloc, r#"[["z", 9]]"#)?)?;
    println!(rt; "{pairs:?}")?; // [('z', 9)]
    Ok(())
}

// Undo and marks
fn undo(rt: &(impl Print + AllocGlobal)) -> Result<()> {
    let mut seats = BiBTreeMap::from_iter(rt.alloc(), [('a', 12u32), ('b', 7)])?;
    let answer = seats.insert('a', 7)?;
    if seats.can_undo_insert(&'a', &answer) {
        println!(rt; "{:?}", seats.undo_insert(&'a', answer)?)?; // ('a', 7)
    }
    let mut seats = Undoable::new(rt.alloc(), seats);
    let mark = seats.mark();
    seats.insert('c', 12)?;
    seats.remove_by_left(&'b')?;
    println!(rt; "{:?}", seats.held())?; // {'c' <> 12}
    seats.back_to(mark);
    println!(rt; "{:?}", seats.held())?; // {'a' <> 12, 'b' <> 7}
    Ok(())
}

// Code over any map
fn seated<B: Bijection<char, u32>>(seats: &mut B, guest: char, seat: u32) -> bool {
    seats.insert(guest, seat).is_ok() && seats.get_by_right(&seat) == Some(&guest)
}

fn any_map(rt: &(impl Print + AllocGlobal)) -> Result<()> {
    let mut ordered: BiBTreeMap<char, u32> = BiBTreeMap::new(rt.alloc());
    let mut mixed: BiHashBTreeMap<char, u32> = BiHashBTreeMap::new(rt.alloc());
    println!(rt;
        "{} {}",
        seated(&mut ordered, 'a', 12),
        seated(&mut mixed, 'a', 12)
    )?; // true true
    // Rattle's `vec!` takes an allocator.
    let calls = vec![in rt.alloc();
        Call::Insert('b', 12),
        Call::Retain(13),
        Call::ContainsLeft('b'),
    ]?;
    let replies = run(
        rt.alloc(),
        &mut ordered,
        calls,
        |least: &u32, _: &char, seat: &u32| *seat >= *least,
    )?;
    println!(rt; "{replies:?}")?; // [Inserted(Right('a', 12)), Done, Holds(false)]
    Ok(())
}

// Your own key types
#[derive(Clone, Copy, Debug, Eq, Hash, Ord, PartialEq, PartialOrd)]
struct Seat {
    row: u8,
    number: u8,
}

fn own_types(rt: &(impl Print + AllocGlobal)) -> Result<()> {
    let mut seats = BiBTreeMap::new(rt.alloc());
    seats.insert("ann", Seat { row: 2, number: 1 })?;
    seats.insert("bob", Seat { row: 1, number: 9 })?;
    println!(rt; "{:?}", seats.right_values().next())?; // Some(Seat { row: 1, number: 9 })
    println!(rt; "{:?}", seats.get_by_right(&Seat { row: 2, number: 1 }))?; // Some("ann")
    Ok(())
}

// Borrowed forms of your own key types
#[derive(Debug, Drop, Eq, Hash, Ord, PartialEq, PartialOrd)]
struct Name {
    text: String,
}

impl Query<Name> for &str {
    ghost same = { λ name text. bytes_eq (string_bytes name.text) text.now };

    ghost respects = { λ text x y. respects_equal nat_list_eq_equiv text.now (string_bytes x.text)
        (string_bytes y.text) };

    fn is(&self, name: &Name) -> bool {
        name.text.as_str() == *self
    }
}

impl OrderQuery<Name> for &str {
    ghost order = { λ name text. slice_cmp nat_cmp (string_bytes name.text) text.now };

    ghost agrees = { λ text name. texts_ties (string_bytes name.text) text.now };

    ghost follows = { λ text x y. follows_itself nat_list_cmp_total text.now (string_bytes x.text)
        (string_bytes y.text) };

    fn order(&self, name: &Name) -> Ordering {
        name.text.as_str().cmp(*self)
    }
}

impl HashQuery<Name> for &str {
    ghost hashed = { λ text name e. sym (ap fed.str ((bytes_decides (string_bytes name.text)
        text.now).0 e)) };
}

fn make_name(rt: &impl AllocGlobal, text: &str) -> Result<Name> {
    let text = String::from_str(rt.alloc(), text)?;
    Ok(Name { text })
}

fn own_forms(rt: &(impl Print + AllocGlobal)) -> Result<()> {
    let mut seats: BiBTreeMap<Name, u32> = BiBTreeMap::new(rt.alloc());
    seats.insert(make_name(rt, "ann")?, 12)?;
    println!(rt; "{:?}", seats.get_by_left(By("ann")))?; // Some(12)
    println!(rt; "{}", seats.left_rank(By("bob")))?; // 1
    let mut queue: BiInsertionOrderMap<Name, u32> = BiInsertionOrderMap::new(rt.alloc());
    queue.insert(make_name(rt, "cat")?, 3)?;
    println!(rt; "{}", queue.to_back(By("cat")))?; // true
    println!(rt; "{}", queue.remove_by_left(By("ann")).is_some())?; // false
    Ok(())
}

fn main(rt: HostRuntime) -> Result<()> {
    let mut seats: BiBTreeMap<&str, u32> = BiBTreeMap::new(rt.alloc());
    seats.insert("ann", 12)?;
    println!(rt; "{seats:?}")?; // {"ann" <> 12}

    make(&rt)?;
    look_up(&rt)?;
    insert(&rt)?;
    policies(&rt)?;
    remove(&rt)?;
    iterate(&rt)?;
    in_order(&rt)?;
    capacity(&rt)?;
    whole(&rt)?;
    json(&rt)?;
    undo(&rt)?;
    any_map(&rt)?;
    own_types(&rt)?;
    own_forms(&rt)
}
