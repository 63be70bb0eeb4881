//! What the programs have in common: their arguments, the words of a line, what a bad line should have been, and a file
//! that is replaced as a whole.
#![tactic(auto)]

mod arguments;
mod file;
mod target;

pub use arguments::{Asked, file_argument, no_argument, status_of};
pub use file::{Keeper, serve_file};
use std::io::{self, ErrorKind};
use std::str::SplitAsciiWhitespace;

/// The answer to a line that is not text.
pub const NO_TEXT: &str = "bad line; wanted: text in UTF-8";

/// Returns the text of a line, or `None` if the line is not UTF-8. An `Err` is another fault of reading.
pub fn text_of(line: io::Result<String>) -> io::Result<Option<String>> {
    match line {
        Ok(line) => Ok(Some(line)),
        Err(error) if error.kind() == ErrorKind::InvalidData => Ok(None),
        Err(error) => Err(error),
    }
}

/// Returns the words of a text. One or more ASCII blanks separate two words. Blanks are spaces, tabs, line feeds,
/// carriage returns and form feeds.
pub fn words(text: &str) -> SplitAsciiWhitespace<'_> {
    text.split_ascii_whitespace()
}

/// Returns the text after the first word. Returns `None` if the first word is another one.
pub fn after_first<'a>(text: &'a str, word: &str) -> Option<&'a str> {
    let rest = text.trim_ascii_start().strip_prefix(word)?;
    (words(text).next() == Some(word)).then_some(rest)
}

/// Returns the word, or `None` if it begins with `+`. `str::parse` accepts such a word as a number, and no program
/// does.
pub fn unsigned(word: &str) -> Option<&str> {
    if word.starts_with('+') {
        return None;
    }
    Some(word)
}

/// Returns the number that a word of decimal digits spells. Returns `None` if the word is no such number, or if the
/// number is above 4294967295. Leading zeros are allowed.
pub fn number(word: &str) -> Option<u32> {
    unsigned(word)?.parse().ok()
}

/// Returns what a bad line should have been. `requests` lists one request on each line. The function returns the first
/// request that begins with the first word of the line, or else the last request.
pub fn wanted(requests: &'static str, line: &str) -> &'static str {
    let verb = words(line).next();
    for request in requests.lines() {
        if words(request).next() == verb {
            return request;
        }
    }
    requests.lines().last().unwrap_or(requests)
}
