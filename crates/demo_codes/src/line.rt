//! The requests that a line can make of the table, and the replies.
use crate::codes::{assign, assign_all, code_of, name_of, written};
use crate::fault::Fault;
use crate::table::{Codes, gives_table, items_after, parse_items, table_of};
use bimap::{NoMemory, NotInserted};
use std::alloc::{AllocError, Global};
use std::io;
use tool_lines::{number, wanted, words};

/// The requests, one on each line, and what each does.
pub const REQUESTS: &str = "code NAME - prints the code of the name
name CODE - prints the name of the code
assign NAME CODE - gives the name the code, if neither is taken
assign-all NAME CODE NAME CODE .. - assigns them in order, until one is refused
show - prints the table
table NAME CODE NAME CODE .. - replaces the table
{\"NAME\": CODE, ..} - replaces the table
help - lists these requests, in which CODE is a number up to 4294967295";

// Gives a name a code, and returns in words whether it got the code.
fn assigned(codes: &mut Codes, name: String, code: u32) -> &'static str {
    match assign(codes, name, code) {
        Ok(()) => "assigned",
        Err(NotInserted::Occupied(_, _)) => "taken",
        Err(NotInserted::Memory(_, _)) => "no memory",
    }
}

// Gives new names free codes, in order.
fn take_items(alloc: Global, codes: &mut Codes, text: &str) -> Result<(), Fault> {
    let items = parse_items(alloc, text)?;
    assign_all(codes, items).map_err(Fault::Refused)
}

// Gives new names free codes, and returns in words whether all names got theirs. If not, the text says which did not.
fn all_assigned(alloc: Global, codes: &mut Codes, text: &str) -> Result<String, AllocError> {
    match take_items(alloc, codes, text) {
        Ok(()) => format!(in alloc; "assigned, now {}", codes.len()),
        Err(fault) => format!(in alloc; "{fault}, now {}", codes.len()),
    }
}

/// Returns the table as the text of a JSON object.
pub fn shown(alloc: Global, codes: &Codes) -> Result<String, AllocError> {
    match written(alloc, codes) {
        Ok(object) => format!(in alloc; "{object}"),
        Err(NoMemory) => Err(AllocError),
    }
}

// Returns the code of a name, in words.
fn told_code(alloc: Global, codes: &Codes, name: &str) -> Result<String, AllocError> {
    match code_of(codes, &String::from_str(alloc, name)?) {
        Some(code) => format!(in alloc; "{code}"),
        None => String::from_str(alloc, "no such name"),
    }
}

// Returns the name of a code, in words.
fn told_name(alloc: Global, codes: &Codes, code: u32) -> Result<String, AllocError> {
    match name_of(codes, &code) {
        Some(name) => String::from_str(alloc, name.as_str()),
        None => String::from_str(alloc, "no such code"),
    }
}

// Returns the reply to a line that does not give a new table. If the line is not a request, the reply says what it
// should have been.
//
// `assign-all` reads all its words before a name gets its code. Its reply says last how many names have codes.
fn reply_to(alloc: Global, codes: &mut Codes, line: &str) -> Result<String, AllocError> {
    if let Some(text) = items_after(line, "assign-all") {
        return all_assigned(alloc, codes, text);
    }
    let mut words = words(line);
    let (verb, first) = (words.next(), words.next());
    let (code, second) = (first.map(number), words.next().map(number));
    match (verb, first, code, second, words.next()) {
        (Some("code"), Some(name), _, None, None) => told_code(alloc, codes, name),
        (Some("name"), _, Some(Some(code)), None, None) => told_name(alloc, codes, code),
        (Some("assign"), Some(name), _, Some(Some(code)), None) => {
            let name = String::from_str(alloc, name)?;
            String::from_str(alloc, assigned(codes, name, code))
        }
        (Some("show"), None, _, None, None) => shown(alloc, codes),
        (Some("help"), None, _, None, None) => String::from_str(alloc, REQUESTS),
        _ => format!(in alloc; "bad line; wanted: {}", wanted(REQUESTS, line)),
    }
}

/// Does what a line asks for, and prints the reply. The line is one of `REQUESTS`.
///
/// Returns `false` if the line should give a new table and does not. Then it prints what is wrong with the line, and
/// the table does not change.
pub fn answer(rt: &(impl Print + AllocGlobal), codes: &mut Codes, line: &str) -> io::Result<bool> {
    if !gives_table(line) {
        let reply = reply_to(rt.alloc(), codes, line)?;
        println!(rt; "{reply}")?;
        return Ok(true);
    }
    match table_of(rt.alloc(), line) {
        Ok(table) => {
            *codes = table;
            Ok(true)
        }
        Err(fault) => {
            println!(rt; "{fault}")?;
            Ok(false)
        }
    }
}
