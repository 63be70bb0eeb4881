//! Reads a line as a call.
use crate::request::{Memory, On, Request};
use crate::values::{answer, call, pair, pairs, policy, range, steps, value};
use std::alloc::{AllocError, Global};
use std::str::SplitAsciiWhitespace;
use tool_lines::{unsigned, words as words_in};
use tool_shell_json::{numbered, repeated};

// The kinds of words that follow the name of a call.
#[derive(Clone, Copy)]
enum Words {
    None,
    Value,
    Two,
    PolicyTwo,
    Pairs,
    PolicyPairs,
    Number,
    Undo,
    Steps,
    RangeSteps,
    Call,
    Calls,
    Json,
}

// The names of the calls, by the words that follow them.
const CALLS: [(Words, &str); 13] = [
    (
        Words::Value,
        "get_by_left get_by_right contains_left contains_right remove_by_left remove_by_right
        retain extract_into left_rank right_rank to_front to_back",
    ),
    (
        Words::Two,
        "insert insert_no_overwrite get_by_left_or_insert get_by_left_or_insert_with
        get_by_right_or_insert replace_left replace_right swap_partners contains_pair",
    ),
    (Words::PolicyTwo, "insert_with put"),
    (Words::Pairs, "extend from_iter undo_run"),
    (Words::PolicyPairs, "extend_with from_iter_with insert_all"),
    (
        Words::Number,
        "with_capacity reserve shrink_to pair_at_left_rank pair_at_right_rank
        changes_since back_to undo_last",
    ),
    (Words::Undo, "undo_insert can_undo_insert"),
    (Words::Steps, "iter into_iter left_values right_values"),
    (
        Words::RangeSteps,
        "left_range right_range left_range_between right_range_between",
    ),
    (Words::Call, "perform"),
    (Words::Calls, "run"),
    (Words::Json, "json json_pairs"),
    (
        Words::None,
        "anew new with_hasher with_hashers show len is_empty capacity clear drain_into
        shrink_to_fit for_each clone swap eq partial_cmp cmp hash is_subset_of holds_same_pairs
        into_inverse first_by_left last_by_left pop_first_by_left pop_last_by_left
        first_by_right last_by_right pop_first_by_right pop_last_by_right
        first last pop_first pop_last last_change mark forget held into_inner",
    ),
];

// Returns which words follow the name of a call, or `None` if no call has this name.
fn words_of(name: &str) -> Option<Words> {
    for (words, names) in CALLS {
        if words_in(names).any(|known| known == name) {
            return Some(words);
        }
    }
    None
}

// Reads one or two values, a number or a policy into the request.
fn read_few(
    request: &mut Request<'_>,
    kind: Words,
    words: &mut SplitAsciiWhitespace<'_>,
) -> Option<()> {
    match kind {
        Words::Value => request.first = value(words)?,
        Words::Two => (request.first, request.second) = pair(words)?,
        Words::PolicyTwo => {
            request.policy = policy(words.next()?)?;
            (request.first, request.second) = pair(words)?;
        }
        Words::Number => request.number = unsigned(words.next()?)?.parse().ok()?,
        Words::Undo => {
            request.first = value(words)?;
            request.answer = answer(words)?;
        }
        Words::PolicyPairs => request.policy = policy(words.next()?)?,
        Words::RangeSteps => request.range = range(words.next()?)?,
        _ => {}
    }
    Some(())
}

// Reads the calls of a run. Semicolons separate them. There may be no call.
fn read_calls(request: &mut Request<'_>, rest: &str) -> Result<Option<()>, AllocError> {
    if words_in(rest).next().is_none() {
        return Ok(Some(()));
    }
    for text in rest.split(';') {
        let mut words = words_in(text);
        match call(&mut words) {
            Some(call) if words.next().is_none() => request.calls.push(call)?,
            _ => return Ok(None),
        }
    }
    Ok(Some(()))
}

// Reads a list into the request.
fn read_list(
    request: &mut Request<'_>,
    kind: Words,
    words: &mut SplitAsciiWhitespace<'_>,
) -> Result<Option<()>, AllocError> {
    let alloc = request.alloc;
    match kind {
        Words::Pairs | Words::PolicyPairs => match pairs(alloc, words)? {
            Some(pairs) => request.pairs = pairs,
            None => return Ok(None),
        },
        Words::Steps | Words::RangeSteps => match steps(alloc, words)? {
            Some(steps) => request.steps = steps,
            None => return Ok(None),
        },
        Words::Call | Words::Calls | Words::Json => { for _word in words {} }
        _ => {}
    }
    Ok(Some(()))
}

// Returns the text after this number of words, without the blanks before it.
fn after(text: &str, words: usize) -> &str {
    let mut rest = text.trim_ascii_start();
    for _ in 0..words {
        let word = words_in(rest).next().unwrap_or("");
        rest = rest.strip_prefix(word).unwrap_or("").trim_ascii_start();
    }
    rest
}

fn read_json<'a>(request: &mut Request<'a>, rest: &'a str) -> Option<()> {
    let mut words = words_in(rest);
    request.types = (words.next()?, words.next()?);
    request.policy = policy(words.next()?)?;
    request.text = after(rest, 3);
    Some(())
}

fn read_text<'a>(
    request: &mut Request<'a>,
    kind: Words,
    rest: &'a str,
) -> Result<Option<()>, AllocError> {
    match kind {
        Words::Call | Words::Calls => {
            let (count, text) = repeated(rest).unwrap_or((1, rest));
            for number in 0..count {
                let text = numbered(request.alloc, text, number)?;
                if read_calls(request, text.as_str())?.is_none() {
                    return Ok(None);
                }
            }
            let one = request.calls.len() == 1;
            Ok((one || matches!(kind, Words::Calls)).then_some(()))
        }
        Words::Json => Ok(read_json(request, rest)),
        _ => Ok(Some(())),
    }
}

// Reads the words before the name of a call, and the name.
fn before<'a>(words: &mut SplitAsciiWhitespace<'a>) -> Option<(On, Memory, usize, &'a str)> {
    let (mut on, mut memory, mut count) = (On::Bimap, Memory::Plenty, 1usize);
    for _ in 0..4u32 {
        match words.next()? {
            "undoable" => on = On::Record,
            "inverse" => on = On::Inverse,
            "counted" => on = On::Counted,
            "bounded" => on = On::Bounded,
            "refusing" => memory = Memory::Refused,
            "retrying" => memory = Memory::Rising,
            call => return Some((on, memory, count, call)),
        }
        count = count.saturating_add(1);
    }
    None
}

/// Reads a line as a call. Returns `None` if it is none.
pub fn parse(alloc: Global, line: &str) -> Result<Option<Request<'_>>, AllocError> {
    let mut words = words_in(line);
    let Some((on, memory, count, name)) = before(&mut words) else {
        return Ok(None);
    };
    let Some(kind) = words_of(name) else {
        return Ok(None);
    };
    let mut request = Request::of(alloc, on, memory, name);
    if read_few(&mut request, kind, &mut words).is_none()
        || read_list(&mut request, kind, &mut words)?.is_none()
        || words.next().is_some()
        || read_text(&mut request, kind, after(line, count))?.is_none()
    {
        return Ok(None);
    }
    Ok(Some(request))
}
