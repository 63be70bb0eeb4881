//! Reads a table from a text, which is a line of input or a file.
use crate::codes::{collect_codes, read_codes};
use crate::fault::Fault;
use bimap::BiBTreeHashMap;
use std::alloc::Global;
use tool_lines::{after_first, number, words};

/// Names in ascending order, each with a code. A code is found by its hash.
pub type Codes = BiBTreeHashMap<String, u32>;

/// Reads a text in which names and codes alternate.
pub fn parse_items(alloc: Global, text: &str) -> Result<Vec<(String, u32)>, Fault> {
    let mut items = Vec::new(alloc);
    let mut words = words(text);
    while let Some(name) = words.next() {
        let word = words.next().ok_or(Fault::NoCode)?;
        let code = number(word).ok_or(Fault::NotCode)?;
        let Ok(name) = String::from_str(alloc, name) else {
            return Err(Fault::Memory);
        };
        if items.push((name, code)).is_err() {
            return Err(Fault::Memory);
        }
    }
    Ok(items)
}

/// Returns what follows the first word of a text. Returns `None` if the first word is another one, or if no word
/// follows.
pub fn items_after<'a>(text: &'a str, first: &str) -> Option<&'a str> {
    let items = after_first(text, first)?;
    words(items).next()?;
    Some(items)
}

/// Returns whether a line gives a new table. Such a line begins with `{`, or with `table` and another word.
pub fn gives_table(line: &str) -> bool {
    line.trim_ascii_start().starts_with('{') || items_after(line, "table").is_some()
}

/// Reads a table from a text. The text is `table NAME CODE NAME CODE ..`, or else a JSON object of names with their
/// codes.
pub fn table_of(alloc: Global, text: &str) -> Result<Codes, Fault> {
    match items_after(text, "table") {
        Some(text) => {
            let items = parse_items(alloc, text)?;
            collect_codes(Codes::new(alloc), items).map_err(Fault::Refused)
        }
        None => read_codes(alloc, text).map_err(Fault::NotTable),
    }
}
