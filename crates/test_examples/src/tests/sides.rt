//! Examples of iterators and ranges. Each example is in a function of its own, so that its borrow ends with the
//! function.
use super::{PAIRS, Seats, ordered};
use bimap::BiBTreeHashMap;
use std::ops::Bound;

fn first(seats: &Seats) -> Option<(&char, &u32)> {
    seats.iter().next()
}

fn last(seats: &Seats) -> Option<(&char, &u32)> {
    seats.iter().next_back()
}

fn first_left(seats: &Seats) -> Option<&char> {
    seats.left_values().next()
}

fn first_from_left(seats: &Seats) -> Option<(&char, &u32)> {
    seats.left_range('b'..).next()
}

fn least_right(seats: &Seats) -> Option<&u32> {
    seats.right_values().next()
}

fn first_from_right(seats: &Seats) -> Option<(&char, &u32)> {
    seats.right_range(2..).next()
}

fn first_past_right(seats: &Seats) -> Option<(&char, &u32)> {
    seats
        .right_range_between(Bound::Excluded(&1), Bound::Unbounded)
        .next()
}

fn walk_length(seats: &Seats) -> usize {
    seats.iter().len()
}

fn left_count(seats: &Seats) -> usize {
    seats.left_values().len()
}

fn right_of_first(seats: &BiBTreeHashMap<char, u32>) -> Option<&u32> {
    seats.right_values().next()
}

fn right_count(seats: &BiBTreeHashMap<char, u32>) -> usize {
    seats.right_values().len()
}

#[test]
fn walks_in_order(rt: HostRuntime) {
    let seats = ordered(&rt);
    assert!(&rt; first(&seats) == Some((&'a', &3)));
    assert!(&rt; last(&seats) == Some((&'c', &2)));
    assert!(&rt; walk_length(&seats) == 3);
    assert!(&rt; first_left(&seats) == Some(&'a'));
    assert!(&rt; left_count(&seats) == 3);
    assert!(&rt; first_from_left(&seats) == Some((&'b', &1)));
    assert!(&rt; least_right(&seats) == Some(&1));
    assert!(&rt; first_from_right(&seats) == Some((&'c', &2)));
    assert!(&rt; first_past_right(&seats) == Some((&'c', &2)));
}

#[test]
fn walks_hashed_rights(rt: HostRuntime) {
    let mixed: BiBTreeHashMap<char, u32> = BiBTreeHashMap::from_iter(rt.alloc(), PAIRS)
        .ok()
        .expect(&rt, "no memory");
    assert!(&rt; right_of_first(&mixed) == Some(&3));
    assert!(&rt; right_count(&mixed) == 3);
}
