//! Examples of what works over any map. They are generic functions, so that each kind of map is named only once.
use super::{PAIRS, Seats, holds, ordered};
use bimap::{
    BiBTreeMap, Bijection, Call, Interning, ItemRefused, NoMemory, NotInserted, NotInsertedWith,
    NotReplaced, NotSwapped, OnHeld, Overwritten, Policy, Reply, contains_pair, extend_with,
    from_iter_with, get_by_left_or_insert_with, get_by_right_or_insert, perform, put, replace_left,
    replace_right, run, swap_partners, undo_run,
};
use std::alloc::Global;
use std::process::Abort;
use std::test::Fail;
use test_support::insert_all;

fn sum_of<B: Bijection<char, u32>>(seats: &B) -> u32 {
    let mut sum = 0u32;
    seats.for_each(|_: &char, seat: &u32| sum = sum.wrapping_add(*seat));
    sum
}

fn make_two_places<B: Bijection<char, u32>>(seats: &mut B) -> Result<(), NoMemory> {
    seats.reserve(2)?;
    Ok(())
}

// Returns whether the map contains exactly these pairs.
fn are_held<B: Bijection<char, u32>>(seats: &B, pairs: &[(char, u32)]) -> bool {
    for (left, right) in pairs {
        if seats.get_by_left(left) != Some(right) {
            return false;
        }
    }
    seats.len() == pairs.len()
}

fn put_in<B: Bijection<char, u32> + Drop>(rt: &impl Abort, bimap: B) {
    let mut seats = bimap;
    let once = Policy {
        left: OnHeld::Refuse,
        right: OnHeld::Refuse,
    };
    let refused = extend_with(&mut seats, [('a', 1), ('b', 2), ('c', 1), ('d', 4)], once);
    assert!(rt;
        refused
            == Err(ItemRefused {
                taken: 2,
                why: NotInsertedWith::RightHeld('c', 1)
            })
    );
    assert!(rt; are_held(&seats, &[('a', 1), ('b', 2)]));
}

fn performed<B: Bijection<char, u32> + Drop>(bimap: B) -> Reply<char, u32> {
    let mut seats = bimap;
    let reply = perform(
        &mut seats,
        Call::InsertNoOverwrite('a', 1),
        &|_: &u32, _: &char, _: &u32| true,
    );
    reply
}

fn ran<B: Bijection<char, u32> + Drop>(
    alloc: Global,
    bimap: B,
) -> Result<(Vec<Reply<char, u32>>, B), Fail> {
    let mut seats = bimap;
    let calls = vec![in alloc;
        Call::Insert('d', 4),
        Call::Retain(2),
        Call::ContainsLeft('b'),
    ]?;
    let replies = run(
        alloc,
        &mut seats,
        calls,
        |least: &u32, _: &char, seat: &u32| *seat >= *least,
    )?;
    Ok((replies, seats))
}

fn undone<B: Bijection<char, u32> + Drop>(
    rt: &impl Abort,
    alloc: Global,
    three: B,
) -> Result<B, Fail> {
    let mut seats = three;
    let entries = insert_all(alloc, &mut seats, &[('a', 1)])?;
    assert!(rt; entries.as_slice() == [('a', Overwritten::Both(('a', 3), ('b', 1)))].as_slice());
    undo_run(&mut seats, entries)?;
    Ok(seats)
}

// Tests lists of insertions and of calls, on a map that contains the first pairs. Returns the map, in which 'd' has
// taken the place of 'b'.
fn lists<B: Bijection<char, u32> + Drop>(
    rt: &impl Abort,
    alloc: Global,
    three: B,
) -> Result<B, Fail> {
    let seats = undone(rt, alloc, three)?;
    assert!(rt; are_held(&seats, &PAIRS));
    let (replies, seats) = ran(alloc, seats)?;
    assert!(rt;
        replies.as_slice()
            == [
                Reply::Inserted(Overwritten::Neither),
                Reply::Done,
                Reply::Holds(false)
            ]
            .as_slice()
    );
    assert!(rt; are_held(&seats, &[('a', 3), ('c', 2), ('d', 4)]));
    Ok(seats)
}

// Tests what the calls of any map return. One map contains the first pairs, and two are empty.
fn answers<B: Bijection<char, u32> + Drop>(
    rt: &(impl Abort + AllocGlobal),
    three: B,
    none: B,
    other: B,
) -> Result<(), Fail> {
    let mut seats = three;
    assert!(rt; sum_of(&seats) == 6);
    assert!(rt; make_two_places(&mut seats) == Ok(()));
    assert!(rt; (seats.len(), seats.capacity()) == (3, 5));
    let seats = lists(rt, rt.alloc(), seats)?;
    assert!(rt; performed(seats) == Reply::Occupied('a', 1));
    assert!(rt; performed(other) == Reply::Put);
    put_in(rt, none);
    Ok(())
}

#[test]
fn over_any_bimap(rt: HostRuntime) -> Result<(), Fail> {
    let alloc = rt.alloc();
    answers(&rt, ordered(&rt), Seats::new(alloc), Seats::new(alloc))
}

fn number_of<B: Interning<&'static str, u32>>(
    numbers: &mut B,
    next: u32,
) -> Result<u32, NotInserted<&'static str, u32>> {
    let number = numbers.get_by_left_or_insert("ann", next)?;
    Ok(number)
}

fn renamed<B: Bijection<&'static str, u32> + Drop>(
    bimap: B,
) -> Result<(&'static str, B), NotReplaced<&'static str>> {
    let mut users = bimap;
    let old = replace_left(&mut users, &"ann", "anna")?;
    Ok((old, users))
}

fn moved<B: Bijection<&'static str, u32> + Drop>(bimap: B) -> Result<(u32, B), NotReplaced<u32>> {
    let mut seats = bimap;
    let old = replace_right(&mut seats, &12, 31)?;
    Ok((old, seats))
}

fn numbers_and_replaces<B: Interning<&'static str, u32> + Drop>(rt: &impl Abort, bimap: B) {
    let mut users = bimap;
    assert!(rt; number_of(&mut users, 12) == Ok(12));
    assert!(rt; number_of(&mut users, 13) == Ok(12));
    let (old, users) = moved(users).ok().expect(rt, "12 is held");
    assert!(rt; old == 12 && users.get_by_left(&"ann") == Some(&31));
    let (old, users) = renamed(users).ok().expect(rt, "ann is held");
    assert!(rt; old == "ann" && users.get_by_right(&31) == Some(&"anna"));
}

fn interns<B: Bijection<&'static str, u32> + Drop>(rt: &impl Abort, bimap: B) {
    let mut numbers = bimap;
    assert!(rt; get_by_left_or_insert_with(&mut numbers, "ann", || 12) == Ok(12));
    assert!(rt; get_by_left_or_insert_with(&mut numbers, "ann", || 13) == Ok(12));
    let mut seats = numbers;
    assert!(rt; get_by_right_or_insert(&mut seats, "bob", 12) == Ok("ann"));
    assert!(rt; get_by_right_or_insert(&mut seats, "bob", 7) == Ok("bob"));
}

fn puts<B: Bijection<&'static str, u32> + Drop>(rt: &impl Abort, bimap: B) {
    let mut seats = bimap;
    assert!(rt; seats.insert("ann", 12) == Ok(Overwritten::Neither));
    let is_hers = contains_pair(&seats, &"ann", &12);
    assert!(rt; is_hers);
    let once = Policy {
        left: OnHeld::Refuse,
        right: OnHeld::Refuse,
    };
    assert!(rt; put(&mut seats, "ann", 12, once) == Ok(Overwritten::Pair("ann", 12)));
    assert!(rt; put(&mut seats, "bob", 12, once) == Err(NotInsertedWith::RightHeld("bob", 12)));
}

fn swaps<B: Bijection<&'static str, u32> + Drop>(rt: &impl Abort, bimap: B) {
    let mut seats = bimap;
    assert!(rt; seats.insert("ann", 12) == Ok(Overwritten::Neither));
    assert!(rt; seats.insert("bob", 7) == Ok(Overwritten::Neither));
    assert!(rt; swap_partners(&mut seats, &"ann", &"bob") == Ok(()));
    assert!(rt; swap_partners(&mut seats, &"ann", &"zoe") == Err(NotSwapped::SecondMissing));
    assert!(rt; seats.get_by_left(&"ann") == Some(&7));
    assert!(rt; seats.get_by_right(&12) == Some(&"bob"));
}

// Tests what the calls of any map of texts return. Each group of calls gets an empty map.
fn answers_of_texts<B: Interning<&'static str, u32> + Drop>(
    rt: &impl Abort,
    numbers: B,
    users: B,
    seats: B,
    others: B,
) {
    numbers_and_replaces(rt, numbers);
    interns(rt, users);
    puts(rt, seats);
    swaps(rt, others);
}

type Texts = BiBTreeMap<&'static str, u32>;

#[test]
fn over_any_bimap_of_texts(rt: HostRuntime) {
    let alloc = rt.alloc();
    answers_of_texts(
        &rt,
        Texts::new(alloc),
        Texts::new(alloc),
        Texts::new(alloc),
        Texts::new(alloc),
    );
}

fn made(alloc: Global) -> Result<Seats, ItemRefused<char, u32>> {
    let once = Policy {
        left: OnHeld::Refuse,
        right: OnHeld::Refuse,
    };
    let seats = from_iter_with(BiBTreeMap::new(alloc), [('a', 1), ('b', 2)], once)?;
    Ok(seats)
}

#[test]
fn makes_of_items_under_a_policy(rt: HostRuntime) {
    let seats = made(rt.alloc()).ok().expect(&rt, "neither is taken");
    assert!(&rt; holds(&seats, &[('a', 1), ('b', 2)]));
}
