//! Shows on a terminal how far the reading of a file is.
use bimap_journal::Progress;
use std::io::IsTerminal;

/// Shows on standard error how much of a file was read, if standard error is a terminal.
#[derive(Drop)]
pub struct Reading<'a> {
    rt: &'a HostRuntime,
    path: &'a str,
    is_begun: bool,
    is_shown: bool,
}

impl<'a> Reading<'a> {
    /// Shows nothing yet.
    pub fn new(rt: &'a HostRuntime, path: &'a str) -> Reading<'a> {
        Reading {
            rt,
            path,
            is_begun: false,
            is_shown: false,
        }
    }

    /// Ends the line on the terminal, if there is one.
    pub fn end(&self) {
        if self.is_shown {
            let _ = eprintln!(self.rt);
        }
    }
}

impl Progress for Reading<'_> {
    // The first call comes before the first line. So a small file shows nothing.
    fn at(&mut self, done: usize, of: usize) {
        if self.is_begun && self.rt.stderr().is_terminal() {
            let _ = eprint!(self.rt; "\r{}: {done} of {of} bytes are read", self.path);
            self.is_shown = true;
        }
        self.is_begun = true;
    }
}
