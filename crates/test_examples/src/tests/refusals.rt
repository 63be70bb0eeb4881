//! What each error type says, and how an error is passed on by its text.
use super::ordered;
use bimap::value::{JsonFault, ReadFault};
use bimap::{
    BiBTreeMap, Call, ExtendStopped, ItemRefused, NoMemory, NoRoom, NotInserted, NotInsertedWith,
    NotInverted, NotReplaced, Overwritten, RunRefused, UndoRunStopped, UndoStopped,
};
use bimap_undo::NotRecorded;
use std::error::Error;
use std::process::Abort;
use std::test::Fail;

fn says<E: Error>(rt: &(impl Abort + AllocGlobal), refusal: E, text: &str) {
    let said = refusal.to_string(rt.alloc()).expect(rt, "memory");
    assert!(rt; said.as_str() == text, "{said}");
}

#[test]
fn refusals_of_a_pair(rt: HostRuntime) {
    let full = "out of memory for the pair";
    let held = "the left or the right is already contained";
    says(
        &rt,
        NoRoom {
            left: 'a',
            right: 1,
        },
        full,
    );
    says(&rt, NotInserted::Occupied('a', 1), held);
    says(&rt, NotInserted::Memory('a', 1), full);
    says(
        &rt,
        NotInsertedWith::LeftHeld('a', 1),
        "the left is already contained",
    );
    says(
        &rt,
        NotInsertedWith::RightHeld('a', 1),
        "the right is already contained",
    );
    says(&rt, NotInsertedWith::Memory('a', 1), full);
    says(
        &rt,
        NotReplaced::Missing('a'),
        "the old value is not contained",
    );
    says(
        &rt,
        NotReplaced::Held('a'),
        "another pair has the new value",
    );
    says(
        &rt,
        NotRecorded::Refused(NotReplaced::Missing('a')),
        "the old value is not contained",
    );
    says(&rt, NotRecorded::Memory('a'), "out of memory");
}

#[test]
fn refusals_of_a_list(rt: HostRuntime) -> Result<(), Fail> {
    let alloc = rt.alloc();
    says(&rt, NoMemory, "out of memory");
    let stopped = ExtendStopped {
        taken: 3,
        left: 'a',
        right: 1,
    };
    says(&rt, stopped, "item 3: out of memory for the pair");
    let refused = ItemRefused {
        taken: 2,
        why: NotInsertedWith::RightHeld('a', 1),
    };
    says(&rt, refused, "item 2: the right is already contained");
    let answer = Overwritten::Both(('a', 3), ('b', 1));
    says(
        &rt,
        UndoStopped { answer },
        "out of memory for putting two pairs back",
    );
    let rest = vec![in alloc; ('a', answer)]?;
    says(
        &rt,
        UndoRunStopped { rest },
        "out of memory for putting two pairs back, 1 left to undo",
    );
    let calls = vec![in alloc; Call::<char, u32, u32>::Clear]?;
    says(&rt, RunRefused { calls }, "out of memory for the replies");
    Ok(())
}

#[test]
fn refusal_of_an_inverse(rt: HostRuntime) {
    let given = ordered(&rt);
    says(&rt, NotInverted { given }, "out of memory for the inverse");
}

#[test]
fn faults_of_json(rt: HostRuntime) {
    says(&rt, JsonFault::NotJson, "not JSON");
    says(
        &rt,
        JsonFault::NameTwice,
        "a name stands twice in an object",
    );
    says(&rt, JsonFault::NotAnObject, "not a JSON object");
    says(&rt, JsonFault::BadKey(0), "entry 0: the key is no left");
    says(
        &rt,
        JsonFault::BadValue(1),
        "entry 1: the value is no right",
    );
    says(
        &rt,
        JsonFault::LeftHeld(2),
        "entry 2: the left is already contained",
    );
    says(
        &rt,
        JsonFault::RightHeld(3),
        "entry 3: the right is already contained",
    );
    says(&rt, JsonFault::Memory, "out of memory");
    says(&rt, ReadFault::Bad, "no value of this type");
    says(&rt, ReadFault::Memory, "out of memory");
}

fn seat(seats: &mut BiBTreeMap<char, u32>, guest: char, number: u32) -> anyhow::Result<()> {
    seats.insert_no_overwrite(guest, number)?; // Err: the left or the right is already contained
    Ok(())
}

#[test]
fn a_refusal_passed_on(rt: HostRuntime) {
    let mut seats = ordered(&rt);
    let refused = seat(&mut seats, 'a', 9)
        .err()
        .expect(&rt, "'a' is contained");
    let said = refused.to_string(rt.alloc()).expect(&rt, "memory");
    assert!(&rt; said.as_str() == "the left or the right is already contained");
}
