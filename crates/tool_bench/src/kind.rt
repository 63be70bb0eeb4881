//! What is timed of one type of map.
use crate::calls::{Poppable, changes, fill, queue, removals, total};
use crate::report::Report;
use bimap::{BijectiveMap, WalkedIndex};
use bimap_index::{CopiedIndex, HashIndex, InsertionOrder};
use bimap_tree::Ordered;
use std::hash::BuildHasher;
use std::io::{self, ErrorKind, Print};
use std::rt::Files;
use std::time::Clock;

/// A map of numbers.
pub type Numbers<I, J> = BijectiveMap<u64, u64, I, J>;

/// The left index of a map whose calls are timed. The pairs have an order unless the index is hashed.
pub trait LeftIndex: CopiedIndex<u64> + WalkedIndex<u64> + Drop {
    /// Returns whether the pairs have an order.
    fn has_order() -> bool;

    /// Iterates over all pairs from the last to the first, and returns the sum of `left ^ right`. Returns 0 if the pairs
    /// have no order.
    fn total_back<J: CopiedIndex<u64> + Drop>(bimap: &Numbers<Self, J>) -> u64;

    /// Removes the first pair and returns it. Returns `None` if there is none, or if the pairs have no order.
    fn pop<J: CopiedIndex<u64> + Drop>(bimap: &mut Numbers<Self, J>) -> Option<(u64, u64)>;
}

impl LeftIndex for Ordered {
    fn has_order() -> bool {
        true
    }

    fn total_back<J: CopiedIndex<u64> + Drop>(bimap: &Numbers<Ordered, J>) -> u64 {
        total(bimap.iter().rev())
    }

    fn pop<J: CopiedIndex<u64> + Drop>(bimap: &mut Numbers<Ordered, J>) -> Option<(u64, u64)> {
        bimap.pop_first_by_left()
    }
}

impl<I: CopiedIndex<u64> + Drop> LeftIndex for InsertionOrder<I> {
    fn has_order() -> bool {
        true
    }

    fn total_back<J: CopiedIndex<u64> + Drop>(bimap: &Numbers<InsertionOrder<I>, J>) -> u64 {
        total(bimap.iter().rev())
    }

    fn pop<J: CopiedIndex<u64> + Drop>(
        bimap: &mut Numbers<InsertionOrder<I>, J>,
    ) -> Option<(u64, u64)> {
        bimap.pop_first()
    }
}

impl<LS: BuildHasher + Clone + Drop> LeftIndex for HashIndex<LS> {
    fn has_order() -> bool {
        false
    }

    fn total_back<J: CopiedIndex<u64> + Drop>(_bimap: &Numbers<HashIndex<LS>, J>) -> u64 {
        0
    }

    fn pop<J: CopiedIndex<u64> + Drop>(
        _bimap: &mut Numbers<HashIndex<LS>, J>,
    ) -> Option<(u64, u64)> {
        None
    }
}

impl<I: LeftIndex, J: CopiedIndex<u64> + Drop> Poppable for Numbers<I, J> {
    fn pop(&mut self) -> Option<(u64, u64)> {
        I::pop(self)
    }
}

// Times the iteration. If the pairs have an order, it also iterates backwards.
fn walk<R: Clock + Print, I: LeftIndex, J: CopiedIndex<u64> + Drop>(
    rt: &R,
    report: &Report,
    bimap: &Numbers<I, J>,
) -> io::Result<()> {
    let start = report.start(rt)?;
    let sum = total(bimap.iter());
    report.end(rt, "walk", start, sum)?;
    if !I::has_order() {
        return Ok(());
    }
    let start = report.start(rt)?;
    let sum = I::total_back(bimap);
    report.end(rt, "walk-back", start, sum)
}

// Times a clone. If the pairs have an order, it also removes the first pairs of the clone.
fn copy<R: Clock + Print, I: LeftIndex, J: CopiedIndex<u64> + Drop>(
    rt: &R,
    report: &Report,
    bimap: &Numbers<I, J>,
) -> io::Result<()> {
    let start = report.start(rt)?;
    let Ok(mut copy) = bimap.clone() else {
        return Err(ErrorKind::OutOfMemory.into());
    };
    report.end(rt, "clone", start, copy.len() as u64)?;
    if I::has_order() {
        return queue(rt, report, &mut copy);
    }
    Ok(())
}

/// Times the calls over a map, which is empty before and after.
pub fn measure<R: AllocGlobal + Clock + Files + Print, I: LeftIndex, J: CopiedIndex<u64> + Drop>(
    rt: &R,
    report: &Report,
    bimap: &mut Numbers<I, J>,
) -> io::Result<()> {
    fill(rt, report, bimap)?;
    changes(rt, report, bimap)?;
    walk(rt, report, bimap)?;
    copy(rt, report, bimap)?;
    removals(rt, report, bimap)
}
