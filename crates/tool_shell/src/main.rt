//! A shell in which you can try the maps. Each line of standard input is a call. The shell makes it on each type of
//! map. The line `help` lists the calls.
#![tactic(auto)]

mod asked;
mod counted;
mod course;
mod forward;
mod hashed_left;
mod help;
mod insertion_left;
mod items;
mod kind;
mod kinds;
mod look;
mod marks;
mod ordered_left;
mod parse;
mod put;
mod request;
mod right;
mod rooms;
mod runs;
mod serve;
mod session;
mod short_memory;
mod times;
mod values;
mod word;

use help::HELP;
use serve::Shell;
use std::io;
use std::process::ExitCode;
use tool_lines::{no_argument, status_of};

// Answers all lines.
fn answer_lines(rt: &HostRuntime) -> io::Result<ExitCode> {
    let alloc = rt.alloc();
    let mut shell = Shell::new(alloc)?;
    for line in rt.lines(alloc) {
        let line = line?;
        if line.starts_with("> ") {
            println!(rt; "{line}")?;
        }
        let said = shell.answer(line.as_str())?;
        print!(rt; "{said}")?;
    }
    Ok(ExitCode::SUCCESS)
}

fn run(rt: &HostRuntime) -> io::Result<ExitCode> {
    match no_argument(rt, "tool_shell", HELP)? {
        Some(status) => Ok(status),
        None => answer_lines(rt),
    }
}

fn main(rt: HostRuntime) -> ExitCode {
    status_of(&rt, run(&rt))
}
