//! Examples of look-ups, ends, ranks and moves.
use super::{PAIRS, Seats, ordered};
use bimap::{BiHashMap, BiInsertionOrderMap, Overwritten};
use std::process::Abort;

fn counts(rt: &impl Abort, seats: &Seats) {
    assert!(rt; seats.len() == 3);
    assert!(rt; seats.is_empty() == false);
    assert!(rt; seats.capacity() == 4);
}

fn finds(rt: &impl Abort, seats: &Seats) {
    assert!(rt; seats.get_by_left(&'a') == Some(&3));
    assert!(rt; seats.get_by_right(&1) == Some(&'b'));
    assert!(rt; seats.contains_left(&'d') == false);
    assert!(rt; seats.contains_right(&2) == true);
    assert!(rt; seats.can_undo_insert(&'c', &Overwritten::Left('c', 3)) == false);
}

#[test]
fn looks_up(rt: HostRuntime) {
    let seats = ordered(&rt);
    counts(&rt, &seats);
    finds(&rt, &seats);
}

#[test]
fn finds_ends_and_ranks(rt: HostRuntime) {
    let seats = ordered(&rt);
    by_left(&rt, &seats);
    by_right(&rt, &seats);
}

fn by_left(rt: &impl Abort, seats: &Seats) {
    assert!(rt; seats.first_by_left() == Some((&'a', &3)));
    assert!(rt; seats.last_by_left() == Some((&'c', &2)));
    assert!(rt; seats.pair_at_left_rank(1) == Some((&'b', &1)));
    assert!(rt; seats.left_rank(&'c') == 2);
}

fn by_right(rt: &impl Abort, seats: &Seats) {
    assert!(rt; seats.first_by_right() == Some((&'b', &1)));
    assert!(rt; seats.last_by_right() == Some((&'a', &3)));
    assert!(rt; seats.pair_at_right_rank(1) == Some((&'c', &2)));
    assert!(rt; seats.right_rank(&3) == 2);
}

// Each call removes an end from a map of its own.
fn first_out(rt: &impl Abort, seats: &mut Seats, other: &mut Seats) {
    assert!(rt; seats.pop_first_by_left() == Some(('a', 3)));
    let seats = other;
    assert!(rt; seats.pop_first_by_right() == Some(('b', 1)));
}

fn last_out(rt: &impl Abort, seats: &mut Seats, other: &mut Seats) {
    assert!(rt; seats.pop_last_by_left() == Some(('c', 2)));
    let seats = other;
    assert!(rt; seats.pop_last_by_right() == Some(('a', 3)));
}

#[test]
fn takes_the_ends_out(rt: HostRuntime) {
    first_out(&rt, &mut ordered(&rt), &mut ordered(&rt));
    last_out(&rt, &mut ordered(&rt), &mut ordered(&rt));
}

type InOrder = BiInsertionOrderMap<char, u32>;

fn in_order(rt: &(impl Abort + AllocGlobal)) -> InOrder {
    InOrder::from_iter(rt.alloc(), PAIRS)
        .ok()
        .expect(rt, "no memory")
}

fn first_and_last(rt: &impl Abort, seats: &InOrder) {
    assert!(rt; seats.first() == Some((&'a', &3)));
    assert!(rt; seats.last() == Some((&'c', &2)));
}

// Each call removes an end from a map of its own.
fn pops(rt: &impl Abort, seats: &mut InOrder, other: &mut InOrder) {
    assert!(rt; seats.pop_first() == Some(('a', 3)));
    let seats = other;
    assert!(rt; seats.pop_last() == Some(('c', 2)));
}

fn moves(rt: &impl Abort, seats: &mut InOrder) {
    assert!(rt; seats.to_front(&'b') == true);
    assert!(rt; seats.first() == Some((&'b', &1)));
    assert!(rt; seats.to_back(&'b') == true);
    assert!(rt; seats.last() == Some((&'b', &1)));
}

#[test]
fn takes_and_moves_in_insertion_order(rt: HostRuntime) {
    first_and_last(&rt, &in_order(&rt));
    pops(&rt, &mut in_order(&rt), &mut in_order(&rt));
    moves(&rt, &mut in_order(&rt));
}

fn compares(rt: &impl Abort, seats: &Seats, hashed: &BiHashMap<char, u32>) {
    assert!(rt; seats.is_subset_of(hashed));
    assert!(rt; seats.holds_same_pairs(hashed));
}

#[test]
fn compares_two_kinds(rt: HostRuntime) {
    let hashed = BiHashMap::from_iter(rt.alloc(), super::PAIRS)
        .ok()
        .expect(&rt, "no memory");
    compares(&rt, &ordered(&rt), &hashed);
}
