//! Examples of insertions, removals and capacity. Each function is given the map with which the examples begin.
use super::{Seats, holds, ordered};
use bimap::{NotInserted, NotInsertedWith, OnHeld, Overwritten, Policy};
use std::alloc::Global;
use std::process::Abort;

fn overwrites(rt: &impl Abort, seats: &mut Seats) {
    assert!(rt; seats.insert('a', 1) == Ok(Overwritten::Both(('a', 3), ('b', 1))));
}

fn refuses(rt: &impl Abort, seats: &mut Seats) {
    assert!(rt; seats.insert_no_overwrite('d', 3) == Err(NotInserted::Occupied('d', 3)));
    let keep_right = Policy {
        left: OnHeld::Overwrite,
        right: OnHeld::Refuse,
    };
    assert!(rt; seats.insert_with('d', 3, keep_right) == Err(NotInsertedWith::RightHeld('d', 3)));
}

fn extends(rt: &impl Abort, seats: &mut Seats) {
    assert!(rt; seats.extend([('d', 4), ('e', 1)]) == Ok(()));
    assert!(rt; seats.len() == 4);
}

fn interns(rt: &impl Abort, seats: &mut Seats) {
    assert!(rt; seats.get_by_left_or_insert('a', 4) == Ok(3));
    assert!(rt; seats.get_by_left_or_insert('d', 4) == Ok(4));
    assert!(rt; seats.get_by_left_or_insert('e', 1) == Err(NotInserted::Occupied('e', 1)));
}

#[test]
fn inserts(rt: HostRuntime) {
    overwrites(&rt, &mut ordered(&rt));
    refuses(&rt, &mut ordered(&rt));
    extends(&rt, &mut ordered(&rt));
    interns(&rt, &mut ordered(&rt));
}

fn undoes(rt: &impl Abort, seats: &mut Seats) {
    assert!(rt; seats.can_undo_insert(&'c', &Overwritten::Neither));
    assert!(rt; seats.undo_insert(&'c', Overwritten::Neither) == Ok(('c', 2)));
}

fn removes(rt: &impl Abort, seats: &mut Seats) {
    assert!(rt; seats.remove_by_left(&'a') == Some(('a', 3)));
    assert!(rt; seats.remove_by_right(&4) == None);
    seats.clear();
    assert!(rt; (seats.len(), seats.capacity()) == (0, 4));
}

fn keeps_some(rt: &impl Abort, seats: &mut Seats) {
    seats.retain(|_: &char, seat: &u32| *seat >= 2);
    assert!(rt; seats.len() == 2);
}

fn moves_some(rt: &impl Abort, alloc: Global, seats: &mut Seats) {
    let mut early = Vec::new(alloc);
    assert!(rt; seats.extract_into(&mut early, |_: &char, seat: &u32| *seat < 3) == Ok(()));
    assert!(rt; early.as_slice() == [('b', 1), ('c', 2)].as_slice());
    assert!(rt; holds(seats, &[('a', 3)]));
}

fn moves_all(rt: &impl Abort, alloc: Global, seats: &mut Seats) {
    let mut all = Vec::new(alloc);
    assert!(rt; seats.drain_into(&mut all) == Ok(()));
    assert!(rt; all.as_slice() == [('a', 3), ('b', 1), ('c', 2)].as_slice());
    assert!(rt; (seats.len(), seats.capacity()) == (0, 4));
}

#[test]
fn removes_and_undoes(rt: HostRuntime) {
    undoes(&rt, &mut ordered(&rt));
    removes(&rt, &mut ordered(&rt));
    keeps_some(&rt, &mut ordered(&rt));
    moves_some(&rt, rt.alloc(), &mut ordered(&rt));
    moves_all(&rt, rt.alloc(), &mut ordered(&rt));
}

fn makes_and_takes_room(rt: &impl Abort, seats: &mut Seats) {
    assert!(rt; seats.reserve(5) == Ok(()));
    assert!(rt; seats.capacity() == 8);
    assert!(rt; seats.shrink_to(0) == Ok(()));
    assert!(rt; seats.capacity() == 3);
}

fn takes_spare_room(rt: &impl Abort, seats: &mut Seats) {
    assert!(rt; seats.shrink_to_fit() == Ok(()));
    assert!(rt; seats.capacity() == 3);
}

#[test]
fn gives_room(rt: HostRuntime) {
    makes_and_takes_room(&rt, &mut ordered(&rt));
    takes_spare_room(&rt, &mut ordered(&rt));
}
