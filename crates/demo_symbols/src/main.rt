//! A program that keeps a symbol table with scopes. Each line of standard input is a request, and the program answers
//! it.
#![tactic(auto)]

mod answer;
mod line;
mod symbols;

use answer::answer;
use line::REQUESTS;
use std::io;
use std::process::ExitCode;
use symbols::Symbols;
use tool_lines::{NO_TEXT, no_argument, status_of, text_of};

// Answers all lines.
fn serve(rt: &HostRuntime) -> io::Result<ExitCode> {
    let mut symbols = Symbols::new(rt.alloc());
    for line in rt.lines(rt.alloc()) {
        match text_of(line)? {
            Some(line) => answer(rt, &mut symbols, line.as_str())?,
            None => println!(rt; "{NO_TEXT}")?,
        }
    }
    Ok(ExitCode::SUCCESS)
}

fn run(rt: &HostRuntime) -> io::Result<ExitCode> {
    match no_argument(rt, "demo_symbols", REQUESTS)? {
        Some(status) => Ok(status),
        None => serve(rt),
    }
}

fn main(rt: HostRuntime) -> ExitCode {
    status_of(&rt, run(&rt))
}
