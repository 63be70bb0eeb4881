//! A program that keeps a ledger of guests and their seats. Each line of input is a request. The reply says who lost a
//! seat.
//!
//! By default the ledger is empty at the start. If the program gets the name of a file, it keeps the ledger in this
//! file, and it replies to a line when the file has what the line changed. The status is 2 if the file could not be
//! opened. Then the program answers no line.
#![tactic(auto)]

mod ledger;
mod line;
mod seats;

use ledger::{Ledger, Seats};
use line::{REQUESTS, reply};
use std::io;
use std::process::ExitCode;
use tool_lines::status_of;

// Answers all lines, and prints at the end how many seats are taken.
fn serve(rt: &HostRuntime, ledger: &mut Ledger) -> io::Result<ExitCode> {
    let alloc = rt.alloc();
    for line in rt.lines(alloc) {
        let told = reply(alloc, ledger, line)?;
        println!(rt; "{told}")?;
    }
    println!(rt; "{} seated", ledger.map().len())?;
    Ok(ExitCode::SUCCESS)
}

fn run(rt: &HostRuntime) -> io::Result<ExitCode> {
    match Ledger::of_argument(rt, "demo_seats [FILE]", REQUESTS, Seats::new(rt.alloc()))? {
        Ok(mut ledger) => {
            let ended = serve(rt, &mut ledger);
            ledger.end(rt, ended)
        }
        Err(status) => Ok(status),
    }
}

fn main(rt: HostRuntime) -> ExitCode {
    status_of(&rt, run(&rt))
}
