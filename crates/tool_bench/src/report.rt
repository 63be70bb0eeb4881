//! What a run measures, and what it prints.
use crate::keys::Keys;
use std::io::Print;
use std::rt::Files;
use std::time::{Clock, Instant};
use std::{fs, io};

/// The type of map that runs, its keys, and whether times are measured.
#[derive(Clone, Copy)]
pub struct Report {
    kind: &'static str,
    keys: Keys,
    is_measured: bool,
}

// Returns the number that a word spells, or 0 if it spells none.
fn number(word: Option<&str>) -> u64 {
    word.unwrap_or("").parse().unwrap_or(0)
}

impl Report {
    /// Makes a report that names no type of map yet.
    pub fn new(keys: Keys, is_measured: bool) -> Self {
        Report {
            kind: "",
            keys,
            is_measured,
        }
    }

    /// Returns this report for a type of map.
    pub fn of(&self, kind: &'static str) -> Self {
        Report { kind, ..*self }
    }

    /// Returns the keys of the run.
    pub fn keys(&self) -> Keys {
        self.keys
    }

    /// Returns the time at which a call begins.
    pub fn start<R: Clock>(&self, rt: &R) -> io::Result<Instant> {
        Instant::now(rt)
    }

    /// Prints what the calls found. If times are measured, it first prints the time of one call in nanoseconds, with
    /// one decimal place.
    pub fn end<R: Clock + Print>(
        &self,
        rt: &R,
        call: &str,
        start: Instant,
        found: u64,
    ) -> io::Result<()> {
        let tenths = start
            .elapsed(rt)?
            .as_nanos()
            .saturating_mul(10)
            .checked_div(self.keys.pairs() as u128)
            .unwrap_or(0);
        if self.is_measured {
            println!(rt;
                "{} {call} {}.{} {found}",
                self.kind,
                tenths / 10,
                tenths % 10
            )
        } else {
            println!(rt; "{} {call} {found}", self.kind)
        }
    }

    /// Returns how many bytes of memory the process has for itself, as Linux counts its pages. Returns 0 if times are
    /// not measured.
    pub fn memory<R: Files + AllocGlobal>(&self, rt: &R) -> io::Result<u64> {
        if !self.is_measured {
            return Ok(0);
        }
        let text = fs::read_to_string(rt, "/proc/self/statm")?;
        let mut words = text.split(' ').skip(1);
        let all = number(words.next());
        let shared = number(words.next());
        Ok(all.saturating_sub(shared).saturating_mul(4096))
    }

    /// Prints by how many bytes a pair the memory has grown. It prints nothing if times are not measured.
    pub fn grown<R: Files + Print + AllocGlobal>(&self, rt: &R, before: u64) -> io::Result<()> {
        let bytes = self.memory(rt)?.saturating_sub(before);
        if self.is_measured {
            let each = bytes.checked_div(self.keys.pairs()).unwrap_or(0);
            println!(rt; "{} bytes {each} 0", self.kind)?;
        }
        Ok(())
    }
}
