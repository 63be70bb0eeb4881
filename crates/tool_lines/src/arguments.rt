//! The arguments of a program, and its exit status.
use std::env;
use std::io::{self, ErrorKind};
use std::process::ExitCode;

/// What the arguments ask of a program that can take a file.
#[derive(Debug, Drop)]
pub enum Asked {
    /// There are no arguments. The program answers its lines.
    Lines,
    /// The program answers its lines, and keeps what they change in this file.
    File(String),
    /// The program ends with this status. It has printed everything that there was to print.
    Ended(ExitCode),
}

// The words after the name of the program.
#[derive(Debug, Drop)]
enum Given {
    Nothing,
    Help,
    One(String),
    Other(&'static str),
}

// Reads the arguments. A word that begins with `-` is not the name of a file.
fn read_arguments(rt: &HostRuntime) -> io::Result<Given> {
    let mut words = match env::args(rt) {
        Ok(words) => words,
        Err(error) if error.kind() == ErrorKind::InvalidData => {
            return Ok(Given::Other("an argument is no UTF-8\n"));
        }
        Err(error) => return Err(error),
    };
    let Some(word) = words.nth(1) else {
        return Ok(Given::Nothing);
    };
    if words.next().is_some() {
        return Ok(Given::Other(""));
    }
    match word.as_str() {
        "--help" => Ok(Given::Help),
        text if text.starts_with('-') => Ok(Given::Other("")),
        _ => Ok(Given::One(word)),
    }
}

// Prints the usage and the requests.
fn help(rt: &HostRuntime, usage: &str, requests: &str) -> io::Result<ExitCode> {
    println!(rt; "usage: {usage}\n{}", requests.trim_ascii_end())?;
    Ok(ExitCode::SUCCESS)
}

// Writes the usage to standard error. If this fails, the status still says that the program refused the arguments.
fn refused(rt: &HostRuntime, why: &str, usage: &str) -> ExitCode {
    let _ = eprintln!(rt; "{why}usage: {usage}");
    ExitCode::from(2)
}

/// Reads the arguments of a program whose only argument is `--help`, which prints `usage` and `requests`.
///
/// Returns `None` if there are no arguments. Otherwise it returns the exit status: 0 after `--help`, and 2 after any
/// other argument. In the second case it has written `usage` to standard error.
pub fn no_argument(rt: &HostRuntime, usage: &str, requests: &str) -> io::Result<Option<ExitCode>> {
    match read_arguments(rt)? {
        Given::Nothing => Ok(None),
        Given::Help => help(rt, usage, requests).map(Some),
        Given::One(_) => Ok(Some(refused(rt, "", usage))),
        Given::Other(why) => Ok(Some(refused(rt, why, usage))),
    }
}

/// Reads the arguments of a program that can take a file. It treats all other arguments as [`no_argument`] does.
pub fn file_argument(rt: &HostRuntime, usage: &str, requests: &str) -> io::Result<Asked> {
    match read_arguments(rt)? {
        Given::Nothing => Ok(Asked::Lines),
        Given::Help => help(rt, usage, requests).map(Asked::Ended),
        Given::One(path) => Ok(Asked::File(path)),
        Given::Other(why) => Ok(Asked::Ended(refused(rt, why, usage))),
    }
}

/// Returns the exit status of a program. If reading or writing failed, the status is 1, and standard error says why.
pub fn status_of(rt: &HostRuntime, ended: io::Result<ExitCode>) -> ExitCode {
    match ended {
        Ok(status) => status,
        Err(why) => {
            let _ = eprintln!(rt; "reading or writing failed: {why}");
            ExitCode::FAILURE
        }
    }
}
