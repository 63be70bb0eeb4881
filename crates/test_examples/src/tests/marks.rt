//! Examples of marks.
use super::{Seats, holds};
use bimap::{
    BiBTreeMap, ItemRefused, NoRoom, NotInsertedWith, NotReplaced, OnHeld, Overwritten, Policy,
};
use bimap_undo::{Entry, NotRecorded, Undoable};
use std::process::Abort;
use std::test::Fail;

type Recorded = Undoable<Seats, char, u32>;

type Refusal = Result<(), ItemRefused<char, u32>>;

#[test]
fn goes_back_to_a_mark(rt: HostRuntime) -> Result<(), Fail> {
    let alloc = rt.alloc();
    let mut seats = Undoable::new(alloc, BiBTreeMap::new(alloc));
    seats.insert('a', 1)?;
    let mark = seats.mark();
    seats.insert('a', 2)?;
    seats.remove_by_left(&'a')?;
    seats.back_to(mark);
    assert!(&rt; seats.held().get_by_left(&'a') == Some(&1));
    assert!(&rt; holds(seats.held(), &[('a', 1)]));
    Ok(())
}

fn records_changes(rt: &impl Abort, seats: &mut Recorded) {
    assert!(rt; seats.insert('a', 1) == Ok(false));
    assert!(rt; seats.insert('a', 2) == Ok(true));
    assert!(rt; seats.remove_by_left(&'a') == Ok(true));
    assert!(rt; seats.remove_by_right(&2) == Ok(false));
    assert!(rt; seats.mark() == 3);
}

fn inserted(seats: &mut Recorded) -> Result<bool, NotInsertedWith<char, u32>> {
    let keep = Policy {
        left: OnHeld::Refuse,
        right: OnHeld::Refuse,
    };
    seats.insert_with('a', 1, keep)?;
    seats.insert_with('b', 1, keep)
}

fn all_inserted(seats: &mut Recorded) -> Result<Refusal, NoRoom<char, u32>> {
    let keep = Policy {
        left: OnHeld::Refuse,
        right: OnHeld::Refuse,
    };
    seats.insert('a', 1)?;
    let refused = seats.insert_all([('b', 2), ('c', 3), ('d', 1)], keep);
    Ok(refused)
}

#[test]
fn records_changes_and_no_refusal(rt: HostRuntime) {
    let mut seats = Undoable::new(rt.alloc(), Seats::new(rt.alloc()));
    records_changes(&rt, &mut seats);
    let mut seats = Undoable::new(rt.alloc(), Seats::new(rt.alloc()));
    assert!(&rt; inserted(&mut seats) == Err(NotInsertedWith::RightHeld('b', 1)));
    assert!(&rt; seats.mark() == 1);
    assert!(&rt;
        all_inserted(&mut seats)
            == Ok(Err(ItemRefused {
                taken: 2,
                why: NotInsertedWith::RightHeld('d', 1)
            }))
    );
    assert!(&rt; holds(seats.held(), &[('a', 1)]));
}

fn replaces_a_left(rt: &impl Abort, seats: &mut Recorded) -> Result<(), Fail> {
    seats.insert('a', 1)?;
    assert!(rt; seats.replace_left(&'a', 'b') == Ok(()));
    assert!(rt;
        seats.replace_left(&'a', 'c') == Err(NotRecorded::Refused(NotReplaced::Missing('c')))
    );
    assert!(rt; holds(seats.held(), &[('b', 1)]));
    Ok(())
}

fn replaces_a_right(rt: &impl Abort, seats: &mut Recorded) -> Result<(), Fail> {
    seats.insert('a', 1)?;
    assert!(rt; seats.replace_right(&1, 2) == Ok(()));
    assert!(rt; holds(seats.held(), &[('a', 2)]));
    Ok(())
}

fn shows_the_last_change(rt: &impl Abort, seats: &mut Recorded) -> Result<(), Fail> {
    seats.insert('a', 1)?;
    seats.insert('a', 2)?;
    assert!(rt; seats.last_change() == Some(&Entry::Inserted('a', Overwritten::Left('a', 1))));
    Ok(())
}

fn shows_changes_since(rt: &impl Abort, seats: &mut Recorded) -> Result<(), Fail> {
    seats.insert('a', 1)?;
    let mark = seats.mark();
    seats.remove_by_left(&'a')?;
    assert!(rt; seats.changes_since(mark) == [Entry::Removed('a', 1)].as_slice());
    Ok(())
}

fn undoes_the_last(rt: &impl Abort, seats: &mut Recorded) -> Result<(), Fail> {
    seats.insert('a', 1)?;
    seats.insert('a', 2)?;
    seats.undo_last(1);
    assert!(rt; seats.get_by_left(&'a') == Some(&1));
    assert!(rt; seats.get_by_right(&2) == None);
    Ok(())
}

fn forgets(rt: &impl Abort, seats: &mut Recorded) -> Result<(), Fail> {
    seats.insert('a', 1)?;
    seats.forget();
    assert!(rt; seats.mark() == 0);
    Ok(())
}

fn takes_out_the_first(rt: &impl Abort, seats: &mut Recorded) -> Result<(), Fail> {
    if let Some((&left, _)) = seats.held().first_by_left() {
        seats.remove_by_left(&left)?;
    }
    assert!(rt; seats.held().len() == 0);
    Ok(())
}

fn writes(rt: &(impl Abort + AllocGlobal), seats: &Recorded) -> Result<(), Fail> {
    let mut said = String::new(rt.alloc());
    write!(said, "{seats:?}")?;
    let wanted = "Undoable { held: {'a' <> 1}, changes: [Inserted('a', Neither)] }";
    assert_eq!(rt; said.as_str(), wanted);
    Ok(())
}

fn shows_changes(rt: &(impl Abort + AllocGlobal), seats: &mut Recorded) -> Result<(), Fail> {
    shows_the_last_change(rt, seats)?;
    seats.back_to(0);
    shows_changes_since(rt, seats)?;
    seats.back_to(0);
    undoes_the_last(rt, seats)?;
    writes(rt, seats)
}

fn forgets_changes(rt: &impl Abort, seats: &mut Recorded) -> Result<(), Fail> {
    seats.back_to(0);
    replaces_a_left(rt, seats)?;
    seats.back_to(0);
    replaces_a_right(rt, seats)?;
    seats.back_to(0);
    forgets(rt, seats)?;
    takes_out_the_first(rt, seats)
}

fn shows_ends(rt: &impl Abort, seats: &mut Recorded) -> Result<(), Fail> {
    seats.insert('b', 1)?;
    seats.insert('a', 2)?;
    assert!(rt; seats.first_by_left() == Some((&'a', &2)));
    assert!(rt; seats.last_by_left() == Some((&'b', &1)));
    assert!(rt; seats.first_by_right() == Some((&'b', &1)));
    assert!(rt; seats.last_by_right() == Some((&'a', &2)));
    Ok(())
}

#[test]
fn ends_beside_a_record(rt: HostRuntime) -> Result<(), Fail> {
    let mut seats = Undoable::new(rt.alloc(), Seats::new(rt.alloc()));
    shows_ends(&rt, &mut seats)
}

#[test]
fn shows_and_forgets(rt: HostRuntime) -> Result<(), Fail> {
    let mut seats = Undoable::new(rt.alloc(), Seats::new(rt.alloc()));
    shows_changes(&rt, &mut seats)?;
    forgets_changes(&rt, &mut seats)
}
