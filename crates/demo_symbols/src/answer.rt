//! Answers lines. This file does not know how a symbol table keeps its symbols.
use crate::line::{REQUESTS, Request, parse_line};
use crate::symbols::{NotInterned, Symbols};
use std::io;
use tool_lines::wanted;

// Copies a name into a `String`.
fn owned(rt: &impl AllocGlobal, name: &str) -> io::Result<String> {
    Ok(String::from_str(rt.alloc(), name)?)
}

// Gives a name its number, and prints the answer.
fn intern(rt: &(impl Print + AllocGlobal), symbols: &mut Symbols, name: &str) -> io::Result<()> {
    match symbols.intern(owned(rt, name)?) {
        Ok(number) => println!(rt; "{name} has {number}"),
        Err(NotInterned::NoNumber) => println!(rt; "{name} has no number: none is left"),
        Err(NotInterned::NoMemory) => println!(rt; "{name} has no number: no memory"),
    }
}

// Defines a name, and prints the answer.
fn define(
    rt: &(impl Print + AllocGlobal),
    symbols: &mut Symbols,
    name: &str,
    number: u32,
) -> io::Result<()> {
    match symbols.define(owned(rt, name)?, number) {
        Ok(true) => println!(rt; "{name} is {number}, and shadows"),
        Ok(false) => println!(rt; "{name} is {number}"),
        Err(refused) => println!(rt; "{name} is not defined: {refused}"),
    }
}

/// Does what a line asks for, and prints the answer. If the line is not a request, nothing changes, and the answer says
/// what the line should have been.
pub fn answer(
    rt: &(impl Print + AllocGlobal),
    symbols: &mut Symbols,
    line: &str,
) -> io::Result<()> {
    match parse_line(line) {
        Some(Request::Open) => match symbols.open() {
            Ok(()) => println!(rt; "a scope is opened"),
            Err(_) => println!(rt; "no scope is opened: no memory"),
        },
        Some(Request::Close) => match symbols.close() {
            true => println!(rt; "a scope is closed"),
            false => println!(rt; "no scope is open"),
        },
        Some(Request::Define(name, number)) => define(rt, symbols, name, number),
        Some(Request::Intern(name)) => intern(rt, symbols, name),
        Some(Request::Number(name)) => match symbols.number_of(name) {
            Some(number) => println!(rt; "{name} is {number}"),
            None => println!(rt; "{name} is not known"),
        },
        Some(Request::Name(number)) => match symbols.name_of(&number) {
            Some(name) => println!(rt; "{number} is {name}"),
            None => println!(rt; "{number} is not known"),
        },
        Some(Request::Help) => println!(rt; "{REQUESTS}"),
        None => println!(rt; "bad line; wanted: {}", wanted(REQUESTS, line)),
    }
}
