//! Answers a line by all types of map.
use crate::help::HELP;
use crate::kinds::{Kinds, NAMES};
use crate::parse::parse;
use crate::times::times;
use std::alloc::{AllocError, Global};
use tool_lines::{after_first, unsigned, words};

/// The length of an answer that needs no allocation.
const SAID: usize = 1 << 16;

/// An answer of at most this many bytes is shown whole.
const WHOLE: usize = 4096;

/// This many bytes of either end of a longer answer are shown.
const END: usize = 40;

/// The types of map, and which of them make the calls.
#[derive(Drop)]
pub struct Shell {
    alloc: Global,
    kinds: Kinds,
    chosen: Vec<usize>,
}

// Returns a long answer as its two ends and its length.
fn shortened(alloc: Global, said: String) -> Result<String, AllocError> {
    if said.len() <= WHOLE {
        return Ok(said);
    }
    match (said.get(..END), said.get(said.len().saturating_sub(END)..)) {
        (Some(front), Some(back)) => format!(in alloc; "{front} .. {back} · {} bytes", said.len()),
        _ => Ok(said),
    }
}

// Returns the names of the types of map that gave an answer.
fn names_of(
    alloc: Global,
    answers: &[(usize, String)],
    answer: &str,
) -> Result<String, AllocError> {
    let mut names = String::new(alloc);
    for (kind, given) in answers {
        if given.as_str() == answer {
            let comma = if names.is_empty() { "" } else { ", " };
            write!(names, "{comma}{}", NAMES.get(*kind).unwrap_or(&""))?;
        }
    }
    Ok(names)
}

// Returns each answer once, after the names of the types of map that gave it. There are no names if all gave the same.
fn lines(alloc: Global, answers: &[(usize, String)]) -> Result<String, AllocError> {
    let mut text = String::new(alloc);
    let Some((_, first)) = answers.first() else {
        return format!(in alloc; "no such call on these kinds\n");
    };
    if answers.iter().all(|(_, answer)| *answer == *first) {
        writeln!(text, "{first}")?;
        return Ok(text);
    }
    for (at, (_, answer)) in answers.iter().enumerate() {
        if !answers
            .iter()
            .take(at)
            .any(|(_, before)| *before == *answer)
        {
            let names = names_of(alloc, answers, answer.as_str())?;
            writeln!(text, "[{names}] {answer}")?;
        }
    }
    Ok(text)
}

// Returns the numbers of the types of map that are named. Without a name it returns all. Returns `None` if a name is
// unknown.
fn chosen_of(alloc: Global, names: &str) -> Result<Option<Vec<usize>>, AllocError> {
    let mut chosen = Vec::new(alloc);
    for name in words(names) {
        match NAMES.iter().position(|known| *known == name) {
            Some(kind) => chosen.push(kind)?,
            None => return Ok(None),
        }
    }
    if chosen.is_empty() {
        for kind in 0..NAMES.len() {
            chosen.push(kind)?;
        }
    }
    Ok(Some(chosen))
}

impl Shell {
    /// Makes a shell in which every map is empty.
    pub fn new(alloc: Global) -> Result<Shell, AllocError> {
        let chosen = chosen_of(alloc, "")?.unwrap_or(Vec::new(alloc));
        Ok(Shell {
            alloc,
            kinds: Kinds::new(),
            chosen,
        })
    }

    // Empties all maps and uses the types of map that are named, or all. Returns `false` if a name is unknown.
    fn choose(&mut self, names: &str) -> Result<bool, AllocError> {
        let Some(chosen) = chosen_of(self.alloc, names)? else {
            return Ok(false);
        };
        self.chosen = chosen;
        let mut said = String::new(self.alloc);
        for kind in 0..NAMES.len() {
            self.one(kind, "anew", &mut said)?;
        }
        Ok(true)
    }

    // Writes the answer of one type of map. Returns `None` if the line is no call.
    fn one(
        &mut self,
        kind: usize,
        line: &str,
        said: &mut String,
    ) -> Result<Option<bool>, AllocError> {
        if let Some(rest) = after_first(line, "times") {
            let turns = words(rest).next().unwrap_or("");
            let (Some(turns), Some(call)) = (unsigned(turns), after_first(rest, turns)) else {
                return Ok(None);
            };
            return match turns.parse() {
                Ok(turns) => times(self.alloc, &mut self.kinds, kind, turns, call, said),
                Err(_) => Ok(None),
            };
        }
        match parse(self.alloc, line)? {
            Some(mut request) => Ok(Some(self.kinds.call(kind, &mut request, said)?)),
            None => Ok(None),
        }
    }

    // Makes the call of a line on each of the chosen types of map.
    fn each(&mut self, line: &str) -> Result<String, AllocError> {
        let mut answers = Vec::new(self.alloc);
        for kind in 0..NAMES.len() {
            if !self.chosen.as_slice().contains(&kind) {
                continue;
            }
            let mut said = String::with_capacity(self.alloc, SAID)?;
            match self.one(kind, line, &mut said)? {
                Some(true) => answers.push((kind, shortened(self.alloc, said)?))?,
                Some(false) => {}
                None => return format!(in self.alloc; "bad line: {line}\n"),
            }
        }
        lines(self.alloc, answers.as_slice())
    }

    /// Returns what is printed for a line.
    pub fn answer(&mut self, line: &str) -> Result<String, AllocError> {
        let line = line.strip_prefix("> ").unwrap_or(line).trim_ascii();
        if line.is_empty() || line.starts_with('#') {
            return Ok(String::new(self.alloc));
        }
        if line == "help" {
            return format!(in self.alloc; "{HELP}");
        }
        if let Some(names) = line.strip_prefix("kinds:") {
            return match self.choose(names)? {
                true => Ok(String::new(self.alloc)),
                false => format!(in self.alloc; "bad line: {line}\n"),
            };
        }
        self.each(line)
    }
}
