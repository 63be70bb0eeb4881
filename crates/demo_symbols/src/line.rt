//! Reads lines as requests. This file does not know the symbol table.
use tool_lines::{number, words};

/// The requests, one on each line, and what each does.
pub const REQUESTS: &str = "open - begins a scope
close - ends the innermost scope
define NAME NUMBER - gives the name the number, and hides what either means, until the scope ends
intern NAME - prints the number of the name, which gets one above all in use if it has none
number NAME - prints the number of the name
name NUMBER - prints the name of the number
help - lists these requests, in which NUMBER is at most 4294967295";

/// What a line asks for.
#[derive(Clone, Copy, Debug)]
pub enum Request<'a> {
    /// `open` begins a scope.
    Open,
    /// `close` ends the innermost scope.
    Close,
    /// `define NAME NUMBER` gives the name this number until the scope ends. It shadows what the name or the number
    /// meant before. A definition that repeats the current one also shadows it.
    Define(&'a str, u32),
    /// `intern NAME` gives the name the number after the greatest in use, or 0 if no number is in use. A name that has
    /// a number keeps it.
    Intern(&'a str),
    /// `number NAME` asks which number the name has.
    Number(&'a str),
    /// `name NUMBER` asks which name the number has.
    Name(u32),
    /// `help` lists the requests.
    Help,
}

/// Reads a line as a request. Returns `None` if it is none. The function allocates nothing.
pub fn parse_line(line: &str) -> Option<Request<'_>> {
    let mut words = words(line);
    let request = words.next().unwrap_or("");
    let (first, second, third) = (words.next(), words.next(), words.next());
    match (request, first, second, third) {
        ("open", None, None, None) => Some(Request::Open),
        ("close", None, None, None) => Some(Request::Close),
        ("define", Some(name), Some(word), None) => Some(Request::Define(name, number(word)?)),
        ("intern", Some(name), None, None) => Some(Request::Intern(name)),
        ("number", Some(name), None, None) => Some(Request::Number(name)),
        ("name", Some(word), None, None) => Some(Request::Name(number(word)?)),
        ("help", None, None, None) => Some(Request::Help),
        _ => None,
    }
}
