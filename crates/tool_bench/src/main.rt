//! A program that times the calls of each type of map.
//!
//! `tool_bench PAIRS times` runs the calls over this number of random pairs. By default PAIRS is 1000. It prints how
//! many nanoseconds each call took, and what the calls found. It also prints by how many bytes a pair the memory of the
//! process grew until all pairs were in. This number is right only for the first map of the process.
//!
//! `tool_bench PAIRS times rising` uses rising keys. Any other third word means random keys. With a fourth word, as
//! `BiHashMap`, only this type of map runs. Without `times` the program prints only what the calls found.
//!
//! `tool_bench PAIRS times chance journal FILE CALL` opens a journal, and makes one of the calls `open`, `insert`,
//! `apply` and `compact` on it. `insert` makes a call for each pair, and `apply` one for each 1,000 pairs.
//!
//! The program ends with an error if the first word is not a number, or if there is no memory.
#![tactic(auto)]

mod calls;
mod journal;
mod keys;
mod kind;
mod report;

use bimap::{BiBTreeHashMap, BiBTreeMap, BiHashBTreeMap, BiHashMap, BiInsertionOrderMap};
use keys::Keys;
use kind::measure;
use report::Report;
use std::env;
use std::io::{self, ErrorKind, Print};
use std::rt::Files;
use std::time::Clock;

// Each type of map has a function of its own. One function with all calls would take longer to prove.
fn ordered<R: AllocGlobal + Clock + Files + Print>(rt: &R, report: &Report) -> io::Result<()> {
    measure(
        rt,
        &report.of("BiBTreeMap"),
        &mut BiBTreeMap::new(rt.alloc()),
    )
}

fn ordered_left<R: AllocGlobal + Clock + Files + Print>(rt: &R, report: &Report) -> io::Result<()> {
    measure(
        rt,
        &report.of("BiBTreeHashMap"),
        &mut BiBTreeHashMap::new(rt.alloc()),
    )
}

fn ordered_right<R: AllocGlobal + Clock + Files + Print>(
    rt: &R,
    report: &Report,
) -> io::Result<()> {
    measure(
        rt,
        &report.of("BiHashBTreeMap"),
        &mut BiHashBTreeMap::new(rt.alloc()),
    )
}

fn hashed<R: AllocGlobal + Clock + Files + Print>(rt: &R, report: &Report) -> io::Result<()> {
    measure(rt, &report.of("BiHashMap"), &mut BiHashMap::new(rt.alloc()))
}

fn in_order<R: AllocGlobal + Clock + Files + Print>(rt: &R, report: &Report) -> io::Result<()> {
    measure(
        rt,
        &report.of("BiInsertionOrderMap"),
        &mut BiInsertionOrderMap::new(rt.alloc()),
    )
}

// Runs the type of map that has this name.
fn run<R: AllocGlobal + Clock + Files + Print>(
    rt: &R,
    report: &Report,
    kind: &str,
) -> io::Result<()> {
    match kind {
        "BiBTreeMap" => ordered(rt, report),
        "BiBTreeHashMap" => ordered_left(rt, report),
        "BiHashBTreeMap" => ordered_right(rt, report),
        "BiHashMap" => hashed(rt, report),
        "BiInsertionOrderMap" => in_order(rt, report),
        _ => Err(ErrorKind::InvalidInput.into()),
    }
}

const KINDS: [&str; 5] = [
    "BiBTreeMap",
    "BiBTreeHashMap",
    "BiHashBTreeMap",
    "BiHashMap",
    "BiInsertionOrderMap",
];

fn main(rt: HostRuntime) -> io::Result<()> {
    let mut words = env::args(&rt)?.skip(1);
    let pairs = match words.next() {
        None => 1000u64,
        Some(word) => match word.parse() {
            Ok(pairs) => pairs,
            Err(_) => return Err(ErrorKind::InvalidInput.into()),
        },
    };
    let is_measured = words.next().is_some();
    let is_rising = words.next().is_some_and(|word| word.as_str() == "rising");
    let report = Report::new(Keys::new(pairs, is_rising), is_measured);
    if let Some(kind) = words.next() {
        return match (words.next(), words.next()) {
            (Some(path), Some(call)) => {
                journal::run(&rt, &report.of("journal"), path.as_str(), call.as_str())
            }
            _ => run(&rt, &report, kind.as_str()),
        };
    }
    for kind in KINDS {
        run(&rt, &report, kind)?;
    }
    Ok(())
}
