//! Texts with numbers in them.
use std::alloc::{AllocError, Global};
use tool_lines::unsigned;

/// Returns the text, in which the seven digits of the number replace each `#`.
pub fn numbered(alloc: Global, pattern: &str, number: usize) -> Result<String, AllocError> {
    let digits = format!(in alloc; "{number:07}")?;
    pattern.replace(alloc, '#', digits.as_str())
}

/// Reads `each N TEXT`. Returns N and the text, which is used N times, each time with another number for each `#`.
pub fn repeated(text: &str) -> Option<(usize, &str)> {
    let (count, text) = text
        .trim_ascii_start()
        .strip_prefix("each ")?
        .split_once(' ')?;
    Some((unsigned(count)?.parse().ok()?, text))
}
