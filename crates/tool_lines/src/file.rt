//! A program that reads a file at the start, and overwrites it at the end.
use crate::target::Target;
use std::alloc::{AllocError, Global};
use std::fmt::Display;
use std::io;
use std::process::ExitCode;

/// A program whose lines change something that it can keep in a file between two runs.
pub trait Keeper {
    /// What the program keeps.
    type Kept: Drop;

    /// Why a text could not be read as what the program keeps.
    type Fault: Display + Drop;

    /// Returns what the program starts with if the file does not exist.
    fn empty(alloc: Global) -> Self::Kept;

    /// Returns what the program starts with if the file has this text.
    fn read(alloc: Global, text: &str) -> Result<Self::Kept, Self::Fault>;

    /// Answers all lines, and returns the exit status.
    fn serve(rt: &HostRuntime, kept: &mut Self::Kept) -> io::Result<ExitCode>;

    /// Returns the text that the program writes back to the file.
    fn text(alloc: Global, kept: &Self::Kept) -> Result<String, AllocError>;
}

// Writes to standard error what is wrong with a file, and returns the status.
fn failed<E: Display>(rt: &HostRuntime, path: &str, why: &E, status: u8) -> ExitCode {
    let _ = eprintln!(rt; "{path}: {why}");
    ExitCode::from(status)
}

// Returns what the program starts with. There is no text if the file does not exist.
fn begun<K: Keeper>(alloc: Global, text: Option<String>) -> Result<K::Kept, K::Fault> {
    match text {
        Some(text) => K::read(alloc, text.as_str()),
        None => Ok(K::empty(alloc)),
    }
}

// Overwrites the file with what the program has at the end.
fn write_back<K: Keeper>(rt: &HostRuntime, target: &Target, kept: &K::Kept) -> io::Result<()> {
    let text = K::text(rt.alloc(), kept)?;
    target.replace(rt, text.as_str())
}

// Answers all lines, and then overwrites the file.
fn serve_kept<K: Keeper>(
    rt: &HostRuntime,
    path: &str,
    target: &Target,
    kept: &mut K::Kept,
) -> io::Result<ExitCode> {
    let status = K::serve(rt, kept)?;
    match write_back::<K>(rt, target, kept) {
        Ok(()) => Ok(status),
        Err(why) => Ok(failed(rt, path, &why, 1)),
    }
}

/// Runs a program over a file. It reads the file, answers all lines, and overwrites the file with what the program has
/// then. If the file does not exist, the program starts empty, and the function makes the file.
///
/// Returns 2 if the file could not be read or is no regular file. Then no line is answered, and the file does not
/// change. Returns 1 if the file could not be overwritten. In both cases standard error names the file and says why. An
/// `Err` says that the program could not answer all lines. Then the file does not change.
pub fn serve_file<K: Keeper>(rt: &HostRuntime, path: &str) -> io::Result<ExitCode> {
    let (target, text) = match Target::open(rt, path) {
        Ok(opened) => opened,
        Err(why) => return Ok(failed(rt, path, &why, 2)),
    };
    match begun::<K>(rt.alloc(), text) {
        Ok(mut kept) => serve_kept::<K>(rt, path, &target, &mut kept),
        Err(why) => Ok(failed(rt, path, &why, 2)),
    }
}
