//! A program that keeps a registry of ids and names. Each line of standard input is a request, and the program answers
//! it.
//!
//! By default the registry is empty at the start. If the program gets the name of a file, it keeps the registry in this
//! file, and it answers a line when the file has what the line changed. The status is 2 if the file could not be opened.
//! Then the program answers no line.
#![tactic(auto)]

mod answer;
mod batch;
mod fault;
mod line;
mod members;
mod registry;

use answer::answer;
use line::REQUESTS;
use members::Members;
use registry::Registry;
use std::io;
use std::process::ExitCode;
use tool_lines::{NO_TEXT, status_of, text_of};

// Answers all lines.
fn serve(rt: &HostRuntime, members: &mut Members) -> io::Result<ExitCode> {
    for line in rt.lines(rt.alloc()) {
        match text_of(line)? {
            Some(line) => answer(rt, members, line.as_str())?,
            None => println!(rt; "{NO_TEXT}")?,
        }
    }
    Ok(ExitCode::SUCCESS)
}

fn run(rt: &HostRuntime) -> io::Result<ExitCode> {
    match Members::of_argument(
        rt,
        "demo_registry [FILE]",
        REQUESTS,
        Registry::new(rt.alloc()),
    )? {
        Ok(mut members) => {
            let ended = serve(rt, &mut members);
            members.end(rt, ended)
        }
        Err(status) => Ok(status),
    }
}

fn main(rt: HostRuntime) -> ExitCode {
    status_of(&rt, run(&rt))
}
