//! A hashed map does not compare a key with all its pairs, one by one. Keys that count their equality tests show this.
use bimap::BiHashMap;
use std::cell::Cell;
use test_support::{Counted, counted_at};

type Numbers<'a> = BiHashMap<Counted<'a>, Counted<'a>>;

// Inserts a thousand pairs. The sum of the two numbers of each pair is 1001.
fn fill<'a>(map: &mut Numbers<'a>, tests: &'a Cell<u64>) {
    for i in 1u32..1001 {
        let _ = map.insert(counted_at(i, tests), counted_at(1001 - i, tests));
    }
}

fn is_number(found: Option<&Counted>, number: u32) -> bool {
    found.is_some_and(|found| found.number == number)
}

// Returns whether each of the thousand pairs is found from both sides.
fn finds_all<'a>(map: &Numbers<'a>, tests: &'a Cell<u64>) -> bool {
    for i in 1u32..1001 {
        let key = counted_at(i, tests);
        if !is_number(map.get_by_left(&key), 1001 - i)
            || !is_number(map.get_by_right(&key), 1001 - i)
        {
            return false;
        }
    }
    true
}

// Returns whether none of a thousand other numbers is found on either side.
fn misses_all<'a>(map: &Numbers<'a>, tests: &'a Cell<u64>) -> bool {
    for i in 1001u32..2001 {
        let key = counted_at(i, tests);
        if map.contains_left(&key) || map.contains_right(&key) {
            return false;
        }
    }
    true
}

#[test]
fn look_ups_test_few_keys(rt: HostRuntime) {
    let tests = Cell::new(0u64);
    let mut map: Numbers = BiHashMap::new(rt.alloc());
    fill(&mut map, &tests);
    tests.set(0);
    assert!(&rt; finds_all(&map, &tests));
    let hits = tests.get();
    assert!(&rt; hits >= 2000 && hits <= 20000, "{hits}");
    tests.set(0);
    assert!(&rt; misses_all(&map, &tests));
    assert!(&rt; tests.get() <= 18000);
}
