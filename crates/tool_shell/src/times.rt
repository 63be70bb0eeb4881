//! One call many times, each time with another number in its words.
use crate::kinds::Kinds;
use crate::parse::parse;
use std::alloc::{AllocError, Global};

/// How many different answers are shown.
const SHOWN: usize = 8;

/// The answers of one type of map, each with how often it came.
#[derive(Drop)]
struct Tally {
    answers: Vec<(String, u64)>,
    others: u64,
}

impl Tally {
    fn new(alloc: Global) -> Tally {
        Tally {
            answers: Vec::new(alloc),
            others: 0,
        }
    }

    fn add(&mut self, answer: String) -> Result<(), AllocError> {
        for (shown, count) in self.answers.iter_mut() {
            if *shown == answer {
                *count = count.saturating_add(1);
                return Ok(());
            }
        }
        if self.answers.len() < SHOWN {
            self.answers.push((answer, 1))?;
        } else {
            self.others = self.others.saturating_add(1);
        }
        Ok(())
    }

    fn write(&self, said: &mut String) -> Result<(), AllocError> {
        let mut between = "";
        for (answer, count) in self.answers.iter() {
            write!(said, "{between}{count} times {answer}")?;
            between = " · ";
        }
        if self.others > 0 {
            write!(said, "{between}{} times another", self.others)?;
        }
        Ok(())
    }
}

// Returns the call with the two numbers of this time in its words, and the two numbers as they are written there.
fn with_numbers(
    alloc: Global,
    line: &str,
    turn: u64,
    turns: u64,
) -> Result<(String, String, String), AllocError> {
    let mixed = turn.saturating_mul(7919).checked_rem(turns).unwrap_or(0);
    let (turn, mixed) = (
        format!(in alloc; "{turn:07}")?,
        format!(in alloc; "{mixed:07}")?,
    );
    let text = line.replace(alloc, '#', turn.as_str())?;
    let text = text.replace(alloc, '%', mixed.as_str())?;
    Ok((text, turn, mixed))
}

// Makes the call once. In what it returned, the sign `#` or `%` replaces the digits of the number.
fn turn(
    alloc: Global,
    kinds: &mut Kinds,
    kind: usize,
    numbers: (u64, u64),
    line: &str,
    said: &mut String,
) -> Result<Option<bool>, AllocError> {
    let (text, turn, mixed) = with_numbers(alloc, line, numbers.0, numbers.1)?;
    let Some(mut request) = parse(alloc, text.as_str())? else {
        return Ok(None);
    };
    said.clear();
    let has = kinds.call(kind, &mut request, said)?;
    *said = if line.contains('%') {
        said.replace(alloc, mixed.as_str(), "%")?
    } else {
        said.replace(alloc, turn.as_str(), "#")?
    };
    Ok(Some(has))
}

/// Makes the call of a line many times on the type of map of this number. Returns whether the type of map has the call,
/// or `None` if the line is no call.
pub fn times(
    alloc: Global,
    kinds: &mut Kinds,
    kind: usize,
    turns: u64,
    line: &str,
    said: &mut String,
) -> Result<Option<bool>, AllocError> {
    let mut tally = Tally::new(alloc);
    for at in 0..turns {
        match turn(alloc, kinds, kind, (at, turns), line, said)? {
            Some(true) => tally.add(said.clone()?)?,
            other => return Ok(other),
        }
    }
    said.clear();
    tally.write(said)?;
    Ok(Some(true))
}
