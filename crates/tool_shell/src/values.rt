//! Reads the words of a line as the values of a call.
use crate::request::Step;
use crate::word::Word;
use bimap::{Call, OnHeld, Overwritten, Policy};
use std::alloc::{AllocError, Global};
use std::ops::Bound;
use std::str::SplitAsciiWhitespace;
use tool_lines::unsigned;
use tool_shell_json::numbered;

/// Reads the next word as a value.
pub fn value(words: &mut SplitAsciiWhitespace<'_>) -> Option<Word> {
    Word::read(words.next()?)
}

/// Reads the next two words as a pair.
pub fn pair(words: &mut SplitAsciiWhitespace<'_>) -> Option<(Word, Word)> {
    let left = value(words)?;
    let right = value(words)?;
    Some((left, right))
}

fn on_held(letter: &str) -> Option<OnHeld> {
    match letter {
        "o" => Some(OnHeld::Overwrite),
        "r" => Some(OnHeld::Refuse),
        _ => None,
    }
}

/// Reads a word of two letters as a policy.
pub fn policy(word: &str) -> Option<Policy> {
    let (left, right) = word.split_at_checked(1)?;
    Some(Policy {
        left: on_held(left)?,
        right: on_held(right)?,
    })
}

/// Reads what an insertion returned.
pub fn answer(words: &mut SplitAsciiWhitespace<'_>) -> Option<Overwritten<Word, Word>> {
    match words.next()? {
        "Neither" => Some(Overwritten::Neither),
        "Left" => pair(words).map(|(left, right)| Overwritten::Left(left, right)),
        "Right" => pair(words).map(|(left, right)| Overwritten::Right(left, right)),
        "Pair" => pair(words).map(|(left, right)| Overwritten::Pair(left, right)),
        "Both" => Some(Overwritten::Both(pair(words)?, pair(words)?)),
        _ => None,
    }
}

fn step(word: &str) -> Option<Step> {
    match word {
        "front" => Some(Step::Front),
        "back" => Some(Step::Back),
        "len" => Some(Step::Len),
        "copy" => Some(Step::Copy),
        "rest" => Some(Step::Rest),
        _ => None,
    }
}

/// Reads the steps of an iterator. Without a word, the only step is the rest of the items.
pub fn steps(
    alloc: Global,
    words: &mut SplitAsciiWhitespace<'_>,
) -> Result<Option<Vec<Step>>, AllocError> {
    let mut steps = Vec::new(alloc);
    for word in words {
        match step(word) {
            Some(step) => steps.push(step)?,
            None => return Ok(None),
        }
    }
    if steps.is_empty() {
        steps.push(Step::Rest)?;
    }
    Ok(Some(steps))
}

// Reads two words, and returns this number of pairs of these words with numbers in them.
fn numbered_pairs(
    alloc: Global,
    count: &str,
    words: &mut SplitAsciiWhitespace<'_>,
) -> Result<Option<Vec<(Word, Word)>>, AllocError> {
    let Some(Ok(count)) = unsigned(count).map(str::parse) else {
        return Ok(None);
    };
    let (Some(left), Some(right)) = (words.next(), words.next()) else {
        return Ok(None);
    };
    let mut pairs = Vec::new(alloc);
    for number in 0..count {
        let (left, right) = (
            numbered(alloc, left, number)?,
            numbered(alloc, right, number)?,
        );
        match (Word::read(left.as_str()), Word::read(right.as_str())) {
            (Some(left), Some(right)) => pairs.push((left, right))?,
            _ => return Ok(None),
        }
    }
    Ok(Some(pairs))
}

// Reads the first word and all words that are left as pairs.
fn listed_pairs(
    alloc: Global,
    first: Option<&str>,
    words: &mut SplitAsciiWhitespace<'_>,
) -> Result<Option<Vec<(Word, Word)>>, AllocError> {
    let mut pairs = Vec::new(alloc);
    let Some(first) = first else {
        return Ok(Some(pairs));
    };
    let (Some(left), Some(right)) = (Word::read(first), value(words)) else {
        return Ok(None);
    };
    pairs.push((left, right))?;
    let mut left = None;
    for word in words {
        match (Word::read(word), left) {
            (None, _) => return Ok(None),
            (Some(read), None) => left = Some(read),
            (Some(read), Some(first)) => {
                pairs.push((first, read))?;
                left = None;
            }
        }
    }
    Ok(left.is_none().then_some(pairs))
}

/// Reads all words that are left as pairs. They are two words for each pair, or `each N L R`, in which a number
/// replaces each `#`.
pub fn pairs(
    alloc: Global,
    words: &mut SplitAsciiWhitespace<'_>,
) -> Result<Option<Vec<(Word, Word)>>, AllocError> {
    let first = words.next();
    if first == Some("each") {
        let count = words.next().unwrap_or("");
        return numbered_pairs(alloc, count, words);
    }
    listed_pairs(alloc, first, words)
}

fn start(word: &str) -> Option<Bound<Word>> {
    if word.is_empty() {
        return Some(Bound::Unbounded);
    }
    match word.strip_prefix('>') {
        Some(word) => Word::read(word).map(Bound::Excluded),
        None => Word::read(word).map(Bound::Included),
    }
}

fn end(word: &str) -> Option<Bound<Word>> {
    if word.is_empty() {
        return Some(Bound::Unbounded);
    }
    match word.strip_prefix('=') {
        Some(word) => Word::read(word).map(Bound::Included),
        None => Word::read(word).map(Bound::Excluded),
    }
}

/// Reads a range as Rust writes it. A start that is excluded has a `>` before it.
pub fn range(word: &str) -> Option<(Bound<Word>, Bound<Word>)> {
    let (low, high) = word.split_once("..")?;
    Some((start(low)?, end(high)?))
}

/// Reads one of the calls of a run.
pub fn call(words: &mut SplitAsciiWhitespace<'_>) -> Option<Call<Word, Word, Word>> {
    match words.next()? {
        "insert" => pair(words).map(|(left, right)| Call::Insert(left, right)),
        "insert_no_overwrite" => pair(words).map(|(left, right)| Call::InsertNoOverwrite(
            left, right,
        )),
        "insert_with" => {
            let policy = policy(words.next()?)?;
            pair(words).map(|(left, right)| Call::InsertWith(left, right, policy))
        }
        "remove_by_left" => value(words).map(Call::RemoveByLeft),
        "remove_by_right" => value(words).map(Call::RemoveByRight),
        "contains_left" => value(words).map(Call::ContainsLeft),
        "contains_right" => value(words).map(Call::ContainsRight),
        "retain" => value(words).map(Call::Retain),
        "clear" => Some(Call::Clear),
        _ => None,
    }
}
