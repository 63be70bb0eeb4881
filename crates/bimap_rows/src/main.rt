//! A program that keeps pairs. It performs the lines of standard input on a map, prints a reply to each, and prints all
//! pairs at the end.
#![tactic(auto)]

ghost use Rattle.std.specs.Prelude.{◌≡◌};
ghost use Rattle.bimap_rows.specs.Serving.{status_of};

mod held;
mod input;
mod line;
mod reply;
mod serve;
#[cfg(test)]
mod tests;

use serve::{Ending, serve};
use std::io::{self, BufReader, BufWriter, ErrorKind};
use std::process::ExitCode;
use tool_lines::no_argument;

// The lines that name a call. A left is a character, and a right is a number from 0 to 4294967295.
const REQUESTS: &str = "insert LEFT RIGHT - overwrites what is held of either
put LEFT RIGHT - if neither is held
insert-with POLICY LEFT RIGHT - oo, or, ro or rr, left then right: o overwrites, r refuses
drop-left LEFT
drop-right RIGHT
clear
LEFT is a character, RIGHT a number up to 4294967295";

// Does the work over standard input and standard output. Both are buffered.
fn run(rt: &HostRuntime) -> io::Result<Ending> {
    let mut input = BufReader::new(rt.alloc(), rt.reader())?;
    let mut output = BufWriter::new(rt.alloc(), io::writer(rt))?;
    Ok(serve(rt.alloc(), &mut input, &mut output))
}

// Returns the exit status for an ending.
fn status(ending: Ending) -> u8
    ensures { result ≡ status_of ending }
{
    match ending {
        Ending::Clean => 0,
        Ending::InputFailed | Ending::OutputFailed => 1,
        Ending::BadLine(_) => 2,
        Ending::NoMemory => 3,
    }
}

fn main(rt: HostRuntime) -> ExitCode {
    let ending = match no_argument(&rt, "bimap_rows", REQUESTS) {
        Ok(Some(status)) => return status,
        // The buffers need memory, and nothing else can fail there.
        Ok(None) => run(&rt).unwrap_or(Ending::NoMemory),
        Err(error) if error.kind() == ErrorKind::OutOfMemory => Ending::NoMemory,
        Err(_) => Ending::OutputFailed,
    };
    // If standard error fails too, the status still says how the program ended.
    let _ = match ending {
        Ending::Clean => Ok(()),
        Ending::InputFailed => eprintln!(rt; "input failed"),
        Ending::OutputFailed => eprintln!(rt; "output failed"),
        Ending::BadLine(number) => eprintln!(rt; "bad line {number}; wanted:\n{REQUESTS}"),
        Ending::NoMemory => eprintln!(rt; "no memory"),
    };
    ExitCode::from(status(ending))
}
