//! What a compaction writes of a map in insertion order, and in which order it is read again. The checksums come from
//! another program.
use crate::world::{Lent, World};
use anyhow::Result;
use bimap::{BiInsertionOrderMap, BijectiveMap, Index, WalkedIndex};
use bimap_journal::{Journaled, Storage};
use std::alloc::{AllocError, Global};

// A journal over one of the five maps.
type AnySeats<I, J, S> = Journaled<BijectiveMap<u64, u64, I, J>, u64, u64, S>;

type Seats<'a> = Journaled<BiInsertionOrderMap<u64, u64>, u64, u64, Lent<'a>>;

// The pair of 3 is in the place that the pair of 1 had.
const COMPACT: &[u8] = b"jetukoma journal 1
+[\"insert\",5,50] 2a338c8e
+[\"insert\",4,40] 736b761e
+[\"insert\",2,20] a115e53e
+[\"insert\",3,30] 97a32b56
-";

const CHANGED: &[u8] = b"jetukoma journal 1
+[\"insert\",5,50] 2a338c8e
+[\"insert\",4,40] 736b761e
+[\"insert\",2,20] a115e53e
+[\"insert\",3,30] 97a32b56
+[\"insert\",6,60] ec36e9de
-";

fn opened(alloc: Global, world: &mut World) -> Option<Seats<'_>> {
    let empty = BiInsertionOrderMap::new(alloc);
    Journaled::open(alloc, empty, Lent { alloc, world }).ok()
}

fn change<I: WalkedIndex<u64> + Drop, J: Index<u64> + Drop, S: Storage + Drop>(
    seats: &mut AnySeats<I, J, S>,
) -> Result<()> {
    for (left, right) in [(5, 50), (1, 10), (4, 40), (2, 20)] {
        let _ = seats.insert(left, right)?;
    }
    let _ = seats.remove_by_left(&1)?;
    let _ = seats.insert(3, 30)?;
    seats.compact()?;
    Ok(())
}

fn lefts(alloc: Global, seats: &Seats<'_>) -> Result<Vec<u64>, AllocError> {
    let mut lefts = Vec::new(alloc);
    for (left, _) in seats.map().iter() {
        lefts.push(*left)?;
    }
    Ok(lefts)
}

// Compacts the file, and inserts one pair more.
fn compact_and_insert<I: WalkedIndex<u64> + Drop, J: Index<u64> + Drop, S: Storage + Drop>(
    seats: &mut AnySeats<I, J, S>,
) -> Result<()> {
    seats.compact()?;
    let _ = seats.insert(6, 60)?;
    Ok(())
}

/// Returns whether a compaction keeps the insertion order in the file, and whether an opening finds it there.
pub fn is_kept(alloc: Global) -> Result<bool> {
    let mut world = World::new(alloc, &[], u32::MAX)?;
    let Some(mut seats) = opened(alloc, &mut world) else {
        return Ok(false);
    };
    change(&mut seats)?;
    drop(seats);
    if world.disk() != COMPACT {
        return Ok(false);
    }
    let Some(mut seats) = opened(alloc, &mut world) else {
        return Ok(false);
    };
    let found = lefts(alloc, &seats)?;
    compact_and_insert(&mut seats)?;
    drop(seats);
    Ok(found.as_slice() == [5, 4, 2, 3].as_slice() && world.disk() == CHANGED)
}
