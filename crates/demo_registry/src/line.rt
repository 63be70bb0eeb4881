//! Reads lines as requests, and texts as lists of members. This file does not know the registry.
use std::alloc::{AllocError, Global};
use tool_lines::{after_first, number, words};

/// The requests, one on each line, and what each does.
pub const REQUESTS: &str = "register ID NAME - registers both, if neither is taken
rename NAME to NAME - gives the id of the first name to the second
renumber ID to ID - gives the name of the first id to the second
batch ID NAME ID NAME .. - registers all of them, or none
who ID - prints the name of the id
id NAME - prints the id of the name
list - prints all ids with their names
room - prints the capacity
give-back - gives back the capacity that nobody uses
compact - writes FILE anew, with a line for each member
help - lists these requests, in which ID is a number up to 4294967295";

/// A line as a request.
#[derive(Clone, Copy, Debug)]
pub enum Request<'a> {
    /// `register ID NAME` gives the id to the name. Neither may be taken.
    Register(u32, &'a str),
    /// `rename NAME to NAME` gives the id of the first name to the second name.
    Rename(&'a str, &'a str),
    /// `renumber ID to ID` gives the name of the first id the second id.
    Renumber(u32, u32),
    /// `batch ID NAME ID NAME ..` registers all members that the rest of the line lists, or none.
    Batch(&'a str),
    /// `who ID` asks which name the id has.
    Who(u32),
    /// `id NAME` asks which id the name has.
    Id(&'a str),
    /// `list` asks for all members.
    List,
    /// `room` asks for the capacity.
    Room,
    /// `give-back` gives spare capacity back.
    GiveBack,
    /// `compact` writes the file anew.
    Compact,
    /// `help` lists the requests.
    Help,
}

/// Reads a text in which ids and names alternate. Returns `None` if the text has other words. The function allocates
/// for the members.
pub fn parse_members(alloc: Global, text: &str) -> Result<Option<Vec<(u32, String)>>, AllocError> {
    let mut members = Vec::new(alloc);
    let mut id = None;
    for word in words(text) {
        match (id, number(word)) {
            (None, Some(first)) => id = Some(first),
            (None, None) => return Ok(None),
            (Some(first), _) => {
                members
                    .push((first, String::from_str(alloc, word)?))
                    .map_err(AllocError::from)?;
                id = None;
            }
        }
    }
    Ok(id.is_none().then_some(members))
}

/// Reads a line as a request. Returns `None` if it is none. The function allocates nothing.
pub fn parse_line(line: &str) -> Option<Request<'_>> {
    let mut words = words(line);
    let request = words.next()?;
    let (first, second, third) = (words.next(), words.next(), words.next());
    let ended = words.next().is_none();
    match (request, first, second, third) {
        ("batch", _, _, _) => Some(Request::Batch(after_first(line, "batch")?)),
        ("register", Some(id), Some(name), None) => Some(Request::Register(number(id)?, name)),
        ("rename", Some(from), Some("to"), Some(to)) if ended => Some(Request::Rename(from, to)),
        ("renumber", Some(from), Some("to"), Some(to)) if ended => {
            Some(Request::Renumber(number(from)?, number(to)?))
        }
        ("who", Some(id), None, None) => Some(Request::Who(number(id)?)),
        ("id", Some(name), None, None) => Some(Request::Id(name)),
        ("list", None, None, None) => Some(Request::List),
        ("room", None, None, None) => Some(Request::Room),
        ("give-back", None, None, None) => Some(Request::GiveBack),
        ("compact", None, None, None) => Some(Request::Compact),
        ("help", None, None, None) => Some(Request::Help),
        _ => None,
    }
}
