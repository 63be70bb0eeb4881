//! The calls of a scenario. It does not know who performs them.
use std::alloc::{AllocError, Global};

/// One call of the journal.
#[derive(Clone, Copy, Debug)]
pub enum Step {
    /// Inserts a pair, and overwrites what shares a value with it.
    Insert(&'static str, u64),
    /// Inserts a pair, unless a pair shares a value with it.
    InsertNew(&'static str, u64),
    /// Inserts a pair, unless a pair has its right.
    Move(&'static str, u64),
    RemoveByLeft(&'static str),
    RemoveByRight(u64),
    Clear,
    /// Writes the file anew.
    Compact,
    /// Replaces a left, if a pair has it and no other pair has the new one.
    ReplaceLeft(&'static str, &'static str),
    /// Replaces a right, if a pair has it and no other pair has the new one.
    ReplaceRight(u64, u64),
    /// Makes the steps that `group` returns for this number, as one group.
    Group(u64),
}

// Names with characters that a journal or a JSON text could take for its own.
const NAMES: [&str; 8] = [
    "ann",
    "",
    "a\"b",
    "line\nbreak",
    "+",
    "-",
    "\u{e9}\\",
    "]} 00",
];

// Returns the next number of a sequence.
fn next(seed: u64) -> u64 {
    seed.wrapping_mul(6_364_136_223_846_793_005)
        .wrapping_add(1_442_695_040_888_963_407)
}

// Returns a name and a number.
fn values(drawn: u64) -> (&'static str, u64) {
    (NAMES[(drawn >> 33) as usize % 8], (drawn >> 40) % 8)
}

// Returns the step of one change that a number stands for.
fn change(drawn: u64) -> Step {
    let (name, number) = values(drawn);
    match (drawn >> 50) % 10 {
        0 | 1 => Step::InsertNew(name, number),
        2 => Step::Move(name, number),
        3 => Step::RemoveByLeft(name),
        4 => Step::RemoveByRight(number),
        _ => Step::Insert(name, number),
    }
}

/// Returns the steps of a group. Each of them is one change.
pub fn group(drawn: u64) -> [Step; 4] {
    let second = next(drawn);
    let third = next(second);
    [
        change(drawn),
        change(second),
        change(third),
        change(next(third)),
    ]
}

// Returns the step that a number stands for.
fn step_of(drawn: u64) -> Step {
    let (name, number) = values(drawn);
    let (other_name, other_number) = values(next(drawn));
    match (drawn >> 54) % 8 {
        0 => Step::ReplaceLeft(name, other_name),
        1 => Step::ReplaceRight(number, other_number),
        2 | 3 => Step::Group(drawn),
        _ => change(drawn),
    }
}

/// Returns a scenario of so many steps. In its midst all pairs are removed. Before and behind, the file is written anew.
pub fn scenario(alloc: Global, count: usize) -> Result<Vec<Step>, AllocError> {
    let mut steps = Vec::new(alloc);
    let mut drawn = 1;
    for at in 0..count {
        drawn = next(drawn);
        let step = if at == count / 2 {
            Step::Clear
        } else if at == count / 4 || at == count / 4 * 3 {
            Step::Compact
        } else {
            step_of(drawn)
        };
        steps.push(step)?;
    }
    Ok(steps)
}
