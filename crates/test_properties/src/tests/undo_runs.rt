//! Lists of insertions that are undone when no place is free.
ghost use Rattle.std.specs.Prelude.{List};
ghost use Rattle.bimap.specs.Trail.{Leads};

use bimap::{BiBTreeMap, Bijection, Overwritten, undo_run};
use std::alloc::{AllocError, Global};
use std::test::Fail;
use test_support::{CopyKind, MemoryLimit, insert_all, shows};

/// Some insertions. Undoing one that overwrote two pairs runs out of memory, and leaves the entries `rest` and the
/// pairs `held`.
struct Row<'a, L, R> {
    insertions: &'a [(L, R)],
    rest: &'a [(L, Overwritten<L, R>)],
    held: &'a [(L, R)],
}

/// The pairs in the map before the insertions.
const PAIRS: [(char, u32); 4] = [('a', 1), ('b', 2), ('c', 3), ('d', 4)];

const OVER_A: (char, Overwritten<char, u32>) = ('a', Overwritten::Both(('a', 1), ('b', 2)));

const ROWS: [Row<'static, char, u32>; 2] = [
    Row {
        insertions: &[('a', 2), ('c', 4), ('e', 5)],
        rest: &[OVER_A],
        held: &[('a', 2), ('c', 3), ('d', 4)],
    },
    Row {
        insertions: &[('e', 5), ('a', 2), ('e', 6)],
        rest: &[('e', Overwritten::Neither), OVER_A],
        held: &[('a', 2), ('c', 3), ('d', 4), ('e', 5)],
    },
];

// Undoes the insertions, with a little more memory each time. Returns how often this stopped. Returns `None` if a stop
// left anything that the row does not say, or if the undoing never succeeds.
fn refusals<L: Copy + Eq + Drop, R: Copy + Eq + Drop, B: Bijection<L, R> + Drop>(
    alloc: Global,
    bimap: &mut B,
    entries: Vec<(L, Overwritten<L, R>)>,
    pairs: &[(L, R)],
    row: &Row<'_, L, R>,
) -> Result<Option<u64>, Fail>
    requires leads { (first : List (L × R)) × Leads L.eq R.eq first entries.items
        (B.holding bimap.old).pairs }
{
    let mut entries = entries;
    let mut limit = MemoryLimit::begin(alloc, 60)?;
    for refusals in 0..60u64 {
        match undo_run(bimap, entries) {
            Ok(()) => return Ok(shows(bimap, pairs).then_some(refusals)),
            Err(stopped) => {
                if stopped.rest.as_slice() != row.rest || !shows(bimap, row.held) {
                    return Ok(None);
                }
                entries = stopped.rest;
            }
        }
        limit.raise()?;
    }
    Ok(None)
}

// Returns whether at least three allocations failed. Making room for a second pair allocates in the store and in both
// indexes.
fn is_refused_in_order(met: Option<u64>) -> bool {
    met.is_some_and(|met| met >= 3)
}

fn is_right<B: CopyKind<char, u32>>(alloc: Global, row: &Row<'_, char, u32>) -> Result<bool, Fail> {
    let mut bimap = B::empty(alloc);
    bimap.add(&PAIRS).ok().ok_or("no memory")?;
    let entries = insert_all(alloc, &mut bimap, row.insertions)?;
    bimap.shrink_to_fit()?;
    if bimap.capacity() != bimap.len() {
        return Ok(false);
    }
    let met = refusals(alloc, &mut bimap, entries, &PAIRS, row)?;
    Ok(is_refused_in_order(met))
}

#[test]
fn a_list_stops_where_no_place_is_free(rt: HostRuntime) -> Result<(), Fail> {
    for row in ROWS.iter() {
        assert!(rt; is_right::<BiBTreeMap<char, u32>>(rt.alloc(), row)?);
    }
    Ok(())
}

// Makes 140 000 pairs, more than a `u16` can count. Makes half as many items, each of which overwrites two of the
// pairs.
fn fill(pairs: &mut Vec<(char, u32)>, items: &mut Vec<(char, u32)>) -> Result<(), AllocError> {
    for at in 0..140_000u32 {
        if let Some(left) = char::from_u32(0x1_0000 + at) {
            pairs.push((left, at))?;
            if at % 2 == 0 {
                items.push((left, at + 1))?;
            }
        }
    }
    Ok(())
}

// Returns whether a list of that many insertions is undone when no place is free.
fn undoes_many<B: CopyKind<char, u32>>(
    alloc: Global,
    pairs: &[(char, u32)],
    items: &[(char, u32)],
) -> Result<bool, Fail> {
    let mut bimap = B::empty(alloc);
    bimap.add(pairs).ok().ok_or("no memory")?;
    let entries = insert_all(alloc, &mut bimap, items)?;
    bimap.shrink_to_fit()?;
    let is_full = bimap.capacity() == items.len();
    undo_run(&mut bimap, entries).ok().ok_or("no memory")?;
    Ok(is_full && shows(&bimap, pairs))
}

#[test]
fn a_long_list_makes_places(rt: HostRuntime) -> Result<(), Fail> {
    let alloc = rt.alloc();
    let (mut pairs, mut items) = (Vec::new(alloc), Vec::new(alloc));
    fill(&mut pairs, &mut items)?;
    assert!(rt; undoes_many::<BiBTreeMap<char, u32>>(alloc, pairs.as_slice(), items.as_slice())?);
    Ok(())
}
