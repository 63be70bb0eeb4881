//! The calls that are timed, over any bimap of numbers. Each function returns what its calls found, by which a run is
//! checked.
ghost use Rattle.std.specs.Iterator.{IsFinite};

use crate::keys::Keys;
use crate::report::Report;
use bimap::Bijection;
use std::io::{self, ErrorKind, Print};
use std::rt::Files;
use std::time::Clock;

/// A bimap of numbers whose first pair can be removed.
pub trait Poppable: Bijection<u64, u64> {
    /// Removes the first pair and returns it. Returns `None` if there is none, or if the pairs have no order.
    fn pop(&mut self) -> Option<(u64, u64)>;
}

// Inserts the pair of a number. Its right is the right of the number that is `apart` further on. Returns whether the
// insertion overwrote a pair.
#[inline]
fn put<B: Bijection<u64, u64>>(
    bimap: &mut B,
    keys: Keys,
    number: u64,
    apart: u64,
) -> io::Result<bool> {
    let right = keys.right(number.wrapping_add(apart));
    match bimap.insert(keys.left(number), right) {
        Ok(overwritten) => Ok(overwritten.did_overwrite()),
        Err(_) => Err(ErrorKind::OutOfMemory.into()),
    }
}

// Inserts the pair of each number. Returns how many insertions overwrote a pair.
fn insert<B: Bijection<u64, u64>>(bimap: &mut B, keys: Keys, apart: u64) -> io::Result<u64> {
    let mut struck = 0u64;
    for number in 0..keys.pairs() {
        struck = struck.wrapping_add(put(bimap, keys, number, apart)? as u64);
    }
    Ok(struck)
}

// Looks up the lefts of the numbers from `from` on. Returns how many are in the map.
fn look_up_by_left<B: Bijection<u64, u64>>(bimap: &B, keys: Keys, from: u64) -> u64 {
    let (mut found, mut number) = (0u64, 0u64);
    for _ in 0..keys.pairs() {
        let key = keys.left(number.wrapping_add(from));
        found = found.wrapping_add(bimap.get_by_left(&key).is_some() as u64);
        number = keys.after(number);
    }
    found
}

// Looks up the rights of the numbers from `from` on. Returns how many are in the map.
fn look_up_by_right<B: Bijection<u64, u64>>(bimap: &B, keys: Keys, from: u64) -> u64 {
    let (mut found, mut number) = (0u64, 0u64);
    for _ in 0..keys.pairs() {
        let key = keys.right(number.wrapping_add(from));
        found = found.wrapping_add(bimap.get_by_right(&key).is_some() as u64);
        number = keys.after(number);
    }
    found
}

// Removes each left. Returns how many were in the map.
fn remove_by_left<B: Bijection<u64, u64>>(bimap: &mut B, keys: Keys) -> u64 {
    let (mut removed, mut number) = (0u64, 0u64);
    for _ in 0..keys.pairs() {
        let key = keys.left(number);
        removed = removed.wrapping_add(bimap.remove_by_left(&key).is_some() as u64);
        number = keys.after(number);
    }
    removed
}

// Returns `left ^ right` of a removed pair, or 0 if there is none.
fn mixed(pair: Option<(u64, u64)>) -> u64 {
    pair.map_or(0, |(left, right)| left ^ right)
}

// Inserts a new pair for each pair, and removes the first pair each time. Returns the sum of `left ^ right` over the
// removed pairs.
fn exchange<B: Poppable>(bimap: &mut B, keys: Keys) -> io::Result<u64> {
    let mut sum = 0u64;
    for number in 0..keys.pairs() {
        put(bimap, keys, number.wrapping_add(keys.pairs()), keys.pairs())?;
        sum = sum.wrapping_add(mixed(bimap.pop()));
    }
    Ok(sum)
}

// Removes the first pair, once for each pair. Returns the sum of `left ^ right` over the removed pairs.
fn pop_all<B: Poppable>(bimap: &mut B, keys: Keys) -> u64 {
    let mut sum = 0u64;
    for _ in 0..keys.pairs() {
        sum = sum.wrapping_add(mixed(bimap.pop()));
    }
    sum
}

/// Iterates over all pairs, and returns the sum of `left ^ right`.
pub fn total<'a, W: Iterator<Item = (&'a u64, &'a u64)> + Drop>(walk: W) -> u64
    requires can { W.can_next walk }
    requires ends { IsFinite (W.remaining walk) }
{
    let mut sum = 0u64;
    for (left, right) in walk {
        sum = sum.wrapping_add(left ^ right);
    }
    sum
}

/// Times the insertions, and measures the memory that they take.
pub fn fill<R: AllocGlobal + Clock + Files + Print, B: Bijection<u64, u64>>(
    rt: &R,
    report: &Report,
    bimap: &mut B,
) -> io::Result<()> {
    let before = report.memory(rt)?;
    let start = report.start(rt)?;
    let struck = insert(bimap, report.keys(), 0)?;
    report.end(rt, "insert", start, struck)?;
    report.grown(rt, before)
}

/// Times look-ups that find something and look-ups that find nothing. Then it times insertions of the same pairs, and
/// insertions that overwrite a pair of the same left.
pub fn changes<R: Clock + Print, B: Bijection<u64, u64>>(
    rt: &R,
    report: &Report,
    bimap: &mut B,
) -> io::Result<()> {
    let keys = report.keys();
    let start = report.start(rt)?;
    let found = look_up_by_left(bimap, keys, 0);
    report.end(rt, "hit-by-left", start, found)?;
    let start = report.start(rt)?;
    let found = look_up_by_right(bimap, keys, 0);
    report.end(rt, "hit-by-right", start, found)?;
    let start = report.start(rt)?;
    let found = look_up_by_left(bimap, keys, keys.pairs());
    report.end(rt, "miss-by-left", start, found)?;
    let start = report.start(rt)?;
    let struck = insert(bimap, keys, 0)?;
    report.end(rt, "same-pair", start, struck)?;
    let start = report.start(rt)?;
    let struck = insert(bimap, keys, keys.pairs())?;
    report.end(rt, "overwrite", start, struck)
}

/// Times a queue of as many pairs as the map contains: a new pair is inserted, and the first pair is removed. Then it
/// times the removals of the first pair, until the map is empty.
pub fn queue<R: Clock + Print, B: Poppable>(
    rt: &R,
    report: &Report,
    bimap: &mut B,
) -> io::Result<()> {
    let keys = report.keys();
    let start = report.start(rt)?;
    let sum = exchange(bimap, keys)?;
    report.end(rt, "queue", start, sum)?;
    let start = report.start(rt)?;
    let sum = pop_all(bimap, keys);
    report.end(rt, "pop-first", start, sum)
}

/// Times the removals by left, until the map is empty.
pub fn removals<R: Clock + Print, B: Bijection<u64, u64>>(
    rt: &R,
    report: &Report,
    bimap: &mut B,
) -> io::Result<()> {
    let start = report.start(rt)?;
    let removed = remove_by_left(bimap, report.keys());
    report.end(rt, "remove", start, removed)
}
