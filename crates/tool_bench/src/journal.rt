//! Times the calls of a journal: opening, insertions, and a compaction.
use crate::keys::Keys;
use crate::report::Report;
use bimap::{BiBTreeMap, Bijection, Call};
use bimap_journal::{File, Journaled, Storage};
use std::alloc::Global;
use std::convert::Infallible;
use std::io::{self, ErrorKind};

type Pairs = Journaled<BiBTreeMap<u64, u64>, u64, u64, File>;

const GROUP: u64 = 1000;

fn open(rt: &HostRuntime, path: &str) -> io::Result<Pairs> {
    let Ok(file) = File::open(rt, path) else {
        return Err(ErrorKind::NotFound.into());
    };
    match Journaled::open(rt.alloc(), BiBTreeMap::new(rt.alloc()), file) {
        Ok(pairs) => Ok(pairs),
        Err(_) => Err(ErrorKind::InvalidData.into()),
    }
}

// Inserts each pair by a call of its own.
fn insert<B: Bijection<u64, u64> + Drop, S: Storage + Drop>(
    pairs: &mut Journaled<B, u64, u64, S>,
    keys: Keys,
) -> io::Result<()> {
    for number in 0..keys.pairs() {
        let Ok(Ok(_)) = pairs.insert(keys.left(number), keys.right(number)) else {
            return Err(ErrorKind::Other.into());
        };
    }
    Ok(())
}

// Returns the calls of one group, which begins with this number.
fn group(alloc: Global, keys: Keys, first: u64) -> io::Result<Vec<Call<u64, u64, Infallible>>> {
    let mut calls = Vec::new(alloc);
    for more in 0..GROUP {
        let number = first.wrapping_add(more);
        let call = Call::Insert(keys.left(number), keys.right(number));
        if calls.push(call).is_err() {
            return Err(ErrorKind::OutOfMemory.into());
        }
    }
    Ok(calls)
}

// Inserts the pairs in groups. Pairs that fill no group are left out.
fn apply<B: Bijection<u64, u64> + Drop, S: Storage + Drop>(
    alloc: Global,
    pairs: &mut Journaled<B, u64, u64, S>,
    keys: Keys,
) -> io::Result<()> {
    for number in 0..keys.pairs() / GROUP {
        let calls = group(alloc, keys, number.wrapping_mul(GROUP))?;
        if pairs.apply(calls).is_err() {
            return Err(ErrorKind::Other.into());
        }
    }
    Ok(())
}

fn compact(pairs: &mut Pairs) -> io::Result<()> {
    if pairs.compact().is_err() {
        return Err(ErrorKind::Other.into());
    }
    Ok(())
}

/// Times the opening of a file, and then the call of this name. Each line has the number of pairs afterwards.
pub fn run(rt: &HostRuntime, report: &Report, path: &str, call: &str) -> io::Result<()> {
    let start = report.start(rt)?;
    let mut pairs = open(rt, path)?;
    report.end(rt, "open", start, pairs.map().len() as u64)?;
    let start = report.start(rt)?;
    match call {
        "open" => return Ok(()),
        "insert" => insert(&mut pairs, report.keys())?,
        "apply" => apply(rt.alloc(), &mut pairs, report.keys())?,
        "compact" => compact(&mut pairs)?,
        _ => return Err(ErrorKind::InvalidInput.into()),
    }
    report.end(rt, call, start, pairs.map().len() as u64)
}
