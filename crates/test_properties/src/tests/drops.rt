//! A map drops each value that it was given exactly once, and not before the value has left the map.
use super::counted::{Counted, Ledger};
use bimap::{BiBTreeHashMap, BiHashBTreeMap, Bijection, OnHeld, Policy, extend_with};
use bimap_undo::Undoable;
use std::alloc::{AllocError, Global};
use std::process::Abort;
use std::test::Fail;
use test_support::{Kind, over_mixed_kinds};

// Inserts a pair of these names. Drops the overwritten pairs, or the pair if it is given back.
fn put<B: Bijection<Counted, Counted>>(
    bimap: &mut B,
    ledger: &mut Ledger,
    left: u32,
    right: u32,
) -> Result<(), AllocError> {
    let (left, right) = ledger.pair(left, right)?;
    drop(bimap.insert(left, right));
    Ok(())
}

// Inserts this many pairs of equal names.
fn fill<B: Bijection<Counted, Counted>>(
    bimap: &mut B,
    ledger: &mut Ledger,
    pairs: u32,
) -> Result<(), AllocError> {
    for name in 0..pairs {
        put(bimap, ledger, name, name)?;
    }
    Ok(())
}

// Makes insertions that overwrite by the left, by the right, one pair by both, and two pairs. Then one insertion is
// refused, and one pair is removed from either side.
fn let_go<B: Bijection<Counted, Counted>>(
    rt: &impl Abort,
    bimap: &mut B,
    ledger: &mut Ledger,
) -> Result<(), AllocError> {
    fill(bimap, ledger, 8)?;
    assert_eq!(rt; ledger.dropped(), Some(0));
    for (left, right, dropped) in [(0, 10, 2), (11, 1, 4), (2, 2, 6), (3, 4, 10)] {
        put(bimap, ledger, left, right)?;
        assert_eq!(rt; ledger.dropped(), Some(dropped), "{left} {right}");
    }
    let (left, right) = ledger.pair(5, 90)?;
    drop(bimap.insert_no_overwrite(left, right));
    assert_eq!(rt; ledger.dropped(), Some(12));
    let key = ledger.value(6)?;
    drop(bimap.remove_by_left(&key));
    drop(bimap.remove_by_right(&key));
    drop(key);
    let key = ledger.value(7)?;
    drop(bimap.remove_by_right(&key));
    drop(key);
    assert_eq!(rt; (bimap.len(), ledger.dropped()), (5, Some(18)));
    Ok(())
}

// Undoes an insertion that overwrites two pairs. The two pairs are in the map again, and the inserted pair leaves it.
fn undone<B: Bijection<Counted, Counted>>(
    rt: &impl Abort,
    bimap: &mut B,
    ledger: &mut Ledger,
) -> Result<(), Fail> {
    let (left, right) = ledger.pair(0, 5)?;
    let answer = bimap.insert(left, right).ok().ok_or("no memory")?;
    assert_eq!(rt; ledger.dropped(), Some(18));
    let key = ledger.value(0)?;
    if !bimap.can_undo_insert(&key, &answer) {
        return Err("it may not be undone".into());
    }
    drop(bimap.undo_insert(&key, answer));
    drop(key);
    assert_eq!(rt; (bimap.len(), ledger.dropped()), (5, Some(21)));
    Ok(())
}

// Keeps some of the pairs, compacts the map, clears it and inserts again.
fn cleared<B: Kind<Counted, Counted>>(
    rt: &impl Abort,
    bimap: &mut B,
    ledger: &mut Ledger,
) -> Result<(), Fail> {
    let least = ledger.value(3)?;
    bimap.retain(|left: &Counted, _: &Counted| *left >= least);
    drop(least);
    assert_eq!(rt; (bimap.len(), ledger.dropped()), (3, Some(26)));
    bimap.shrink_to_fit()?;
    assert_eq!(rt; (bimap.len(), ledger.dropped()), (3, Some(26)));
    bimap.clear();
    assert!(rt; ledger.is_balanced());
    put(bimap, ledger, 1, 2)?;
    assert_eq!(rt; ledger.dropped(), Some(32));
    Ok(())
}

// Inserts a list of pairs of these names, under a policy that overwrites by the left. Drops the overwritten pairs, and
// the pairs that are given back.
fn put_list<B: Bijection<Counted, Counted>>(
    bimap: &mut B,
    ledger: &mut Ledger,
    names: &[(u32, u32)],
    right: OnHeld,
) -> Result<(), AllocError> {
    let mut items = Vec::new(ledger.alloc());
    for (left, right) in names {
        items.push(ledger.pair(*left, *right)?)?;
    }
    let policy = Policy {
        left: OnHeld::Overwrite,
        right,
    };
    drop(extend_with(bimap, items, policy));
    Ok(())
}

// Inserts a list that overwrites two pairs, one by its left and one by its right. Then inserts a list that stops at its
// second pair.
fn put_lists<B: Bijection<Counted, Counted>>(
    rt: &impl Abort,
    bimap: &mut B,
    ledger: &mut Ledger,
) -> Result<(), AllocError> {
    let names = [(0, 0), (1, 1), (0, 1), (0, 2), (3, 2)];
    put_list(bimap, ledger, &names, OnHeld::Overwrite)?;
    assert_eq!(rt; (bimap.len(), ledger.dropped()), (1, Some(8)));
    put_list(bimap, ledger, &[(4, 4), (5, 2), (6, 6)], OnHeld::Refuse)?;
    assert_eq!(rt; (bimap.len(), ledger.dropped()), (2, Some(12)));
    bimap.clear();
    assert!(rt; ledger.is_balanced());
    Ok(())
}

// Inserts forty pairs, with free places between them.
fn fill_with_gaps<B: Bijection<Counted, Counted>>(
    bimap: &mut B,
    ledger: &mut Ledger,
) -> Result<(), AllocError> {
    fill(bimap, ledger, 44)?;
    for name in 20..24 {
        let key = ledger.value(name)?;
        drop(bimap.remove_by_left(&key));
    }
    Ok(())
}

// Takes this many steps of an owning iterator and drops it. The value is the number of pairs that it gave.
macro_rules! given_up {
    ($bimap:expr, $steps:expr) => {{
        let mut walk = $bimap.into_iter();
        let mut given = 0usize;
        for _ in 0..$steps {
            if walk.next().is_some() {
                given = given.saturating_add(1);
            }
        }
        given
    }};
}

fn given_up_by_place(bimap: BiHashBTreeMap<Counted, Counted>, steps: usize) -> usize {
    given_up!(bimap, steps)
}

fn given_up_in_order(bimap: BiBTreeHashMap<Counted, Counted>, steps: usize) -> usize {
    given_up!(bimap, steps)
}

// Tests that an owning iterator drops the remaining pairs when it is dropped after this many steps.
fn the_rest_is_dropped(rt: &impl Abort, alloc: Global, steps: usize) -> Result<(), Fail> {
    let mut ledger = Ledger::new(alloc);
    let mut bimap = BiHashBTreeMap::new(alloc);
    fill_with_gaps(&mut bimap, &mut ledger)?;
    assert_eq!(rt; given_up_by_place(bimap, steps), steps.min(40));
    assert!(rt; ledger.is_balanced(), "{steps}");
    let mut bimap = BiBTreeHashMap::new(alloc);
    fill_with_gaps(&mut bimap, &mut ledger)?;
    assert_eq!(rt; given_up_in_order(bimap, steps), steps.min(40));
    assert!(rt; ledger.is_balanced(), "{steps}");
    Ok(())
}

fn all<B: Kind<Counted, Counted>>(rt: &impl Abort, alloc: Global) -> Result<(), Fail> {
    let mut ledger = Ledger::new(alloc);
    let mut bimap = B::empty(alloc);
    let_go(rt, &mut bimap, &mut ledger)?;
    undone(rt, &mut bimap, &mut ledger)?;
    cleared(rt, &mut bimap, &mut ledger)?;
    bimap.clear();
    put_lists(rt, &mut bimap, &mut Ledger::new(alloc))?;
    drop(bimap);
    assert!(rt; ledger.is_balanced());
    Ok(())
}

// Tests an owning iterator by an ordered left, which is taken from both ends.
fn given_up_at_both_ends(rt: &impl Abort, alloc: Global, steps: usize) -> Result<(), Fail> {
    let mut bimap: BiBTreeHashMap<Counted, Counted> = BiBTreeHashMap::new(alloc);
    let mut ledger = Ledger::new(alloc);
    fill(&mut bimap, &mut ledger, 40)?;
    let mut walk = bimap.into_iter();
    for _ in 0..steps {
        drop(walk.next());
        drop(walk.next_back());
    }
    assert_eq!(rt; ledger.dropped(), Some(steps.saturating_mul(4)));
    drop(walk);
    assert!(rt; ledger.is_balanced(), "{steps}");
    Ok(())
}

// Records the insertion of a right, and of another right that overwrites it.
fn overwrites<B: Bijection<u32, Counted> + Drop>(
    seats: &mut Undoable<B, u32, Counted>,
    ledger: &mut Ledger,
) -> Result<(), AllocError> {
    for name in [10, 11] {
        drop(seats.insert(1, ledger.value(name)?));
    }
    Ok(())
}

// Tests that a record owns the values that its changes removed. It gives them up when it goes back, forgets, or is
// taken apart.
fn recorded<B: Bijection<u32, Counted> + Drop>(
    rt: &impl Abort,
    alloc: Global,
    empty: B,
) -> Result<(), AllocError> {
    let mut ledger = Ledger::new(alloc);
    let mut seats = Undoable::new(alloc, empty);
    overwrites(&mut seats, &mut ledger)?;
    drop(seats.remove_by_left(&1));
    assert_eq!(rt; (seats.mark(), ledger.dropped()), (3, Some(0)));
    seats.back_to(0);
    assert_eq!(rt; ledger.dropped(), Some(2));
    overwrites(&mut seats, &mut ledger)?;
    seats.forget();
    assert_eq!(rt; ledger.dropped(), Some(3));
    drop(seats.remove_by_left(&1));
    drop(seats.into_inner());
    assert!(rt; ledger.is_balanced());
    Ok(())
}

#[test]
fn each_recorded_value_is_dropped_once(rt: HostRuntime) -> Result<(), Fail> {
    let empty: BiHashBTreeMap<u32, Counted> = BiHashBTreeMap::new(rt.alloc());
    recorded(&rt, rt.alloc(), empty)?;
    Ok(())
}

#[test]
fn each_value_is_dropped_once(rt: HostRuntime) -> Result<(), Fail> {
    over_mixed_kinds!(all, Counted, Counted, &rt, ?);
    for steps in [0, 1, 20, 40, 50] {
        the_rest_is_dropped(&rt, rt.alloc(), steps)?;
    }
    for steps in [1, 8, 9, 20] {
        given_up_at_both_ends(&rt, rt.alloc(), steps)?;
    }
    Ok(())
}
