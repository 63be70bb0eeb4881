//! A program that keeps a table of protocol codes.
//!
//! Each line of standard input is a request. It asks for the code of a name, for the name of a code or for the whole
//! table. It can also assign codes, or give a new table. By default the table is empty at the start, and the program
//! prints it at the end. If the program gets the name of a file, it starts with the table of that file. At the end it
//! writes the table back to the file.
//!
//! The status is 2 if a table could not be read. If this was the table of the file, the program answers no line.
#![tactic(auto)]

mod codes;
mod fault;
mod line;
mod table;

use fault::Fault;
use line::{REQUESTS, answer, shown};
use std::alloc::{AllocError, Global};
use std::io;
use std::process::ExitCode;
use table::{Codes, table_of};
use tool_lines::{Asked, Keeper, NO_TEXT, file_argument, serve_file, status_of, text_of};

// The program as `serve_file` runs it over a file.
enum CodeTable {}

impl Keeper for CodeTable {
    type Kept = Codes;

    type Fault = Fault;

    fn empty(alloc: Global) -> Codes {
        Codes::new(alloc)
    }

    fn read(alloc: Global, text: &str) -> Result<Codes, Fault> {
        table_of(alloc, text)
    }

    // The status says whether each table could be read.
    fn serve(rt: &HostRuntime, codes: &mut Codes) -> io::Result<ExitCode> {
        let mut status = ExitCode::SUCCESS;
        for line in rt.lines(rt.alloc()) {
            match text_of(line)? {
                Some(line) => {
                    if !answer(rt, codes, line.as_str())? {
                        status = ExitCode::from(2);
                    }
                }
                None => println!(rt; "{NO_TEXT}")?,
            }
        }
        Ok(status)
    }

    fn text(alloc: Global, codes: &Codes) -> Result<String, AllocError> {
        format!(in alloc; "{}\n", shown(alloc, codes)?)
    }
}

// Answers all lines, starting with an empty table, and prints the table at the end.
fn serve_empty(rt: &HostRuntime) -> io::Result<ExitCode> {
    let mut codes = CodeTable::empty(rt.alloc());
    let status = CodeTable::serve(rt, &mut codes)?;
    print!(rt; "{}", CodeTable::text(rt.alloc(), &codes)?)?;
    Ok(status)
}

fn run(rt: &HostRuntime) -> io::Result<ExitCode> {
    match file_argument(rt, "demo_codes [FILE]", REQUESTS)? {
        Asked::Lines => serve_empty(rt),
        Asked::File(path) => serve_file::<CodeTable>(rt, path.as_str()),
        Asked::Ended(status) => Ok(status),
    }
}

fn main(rt: HostRuntime) -> ExitCode {
    status_of(&rt, run(&rt))
}
