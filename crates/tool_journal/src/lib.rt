//! What the programs have in common that keep a map in memory alone, or in a journal too.
#![tactic(auto)]

mod reading;

ghost use Rattle.std.specs.Prelude.{◌≡◌, []};

use bimap::{Bijection, BijectiveMap, Index, WalkedIndex};
use bimap_journal::{File, Journaled, NotStored, Stored};
use reading::Reading;
use std::fmt::Display;
use std::io::{self, ErrorKind};
use std::process::ExitCode;
use tool_lines::{Asked, file_argument};

/// The map of a program. It is in memory alone, or in a file too.
#[derive(Drop)]
pub enum Kept<B: Bijection<L, R> + Drop, L: Stored + Drop, R: Stored + Drop> {
    /// The program was given no file.
    InMemory(B),
    /// Each change is in a file before it is acknowledged. The text is the path of the file.
    InFile(Journaled<B, L, R, File>, String),
}

// Writes to standard error what is wrong with a file, and returns the status.
fn failed<E: Display>(rt: &HostRuntime, path: &str, why: &E, status: u8) -> ExitCode {
    let _ = eprintln!(rt; "{path}: {why}");
    ExitCode::from(status)
}

/// Returns what a call of a journal returned. If the change was not stored, the reason becomes an error of the system.
pub fn stored<T: Drop, G: Drop, A: Drop>(answer: Result<T, NotStored<G, A>>) -> io::Result<T> {
    match answer {
        Ok(answer) => Ok(answer),
        Err(NotStored::Failed(_, why)) => Err(why),
        Err(NotStored::Memory(_)) => Err(ErrorKind::OutOfMemory.into()),
        Err(NotStored::LineBreak(_)) => Err(ErrorKind::InvalidData.into()),
        Err(NotStored::Stopped(_)) => Err(ErrorKind::Other.into()),
    }
}

impl<B: Bijection<L, R> + Drop, L: Stored + Drop, R: Stored + Drop> Kept<B, L, R> {
    /// Returns the map of a program whose only argument can be the path of a journal. Without an argument, the map is
    /// `empty`, in memory alone. With a path, the map has the pairs of that file. If there is no such file, it is made.
    /// While the function reads a large file, it shows on standard error how far it is, if that is a terminal.
    ///
    /// Returns an exit status in place of the map if the program is to end at once. The status is 0 after `--help`,
    /// which prints `usage` and `requests`. It is 2 after other arguments, or if the file could not be opened or is no
    /// journal of this map. Then standard error says why.
    ///
    /// `Err`: The arguments could not be read, or the help could not be printed.
    ///
    /// Condition: `empty` contains no pair.
    pub fn of_argument(
        rt: &HostRuntime,
        usage: &str,
        requests: &str,
        empty: B,
    ) -> io::Result<Result<Kept<B, L, R>, ExitCode>>
        requires empty { (B.holding empty).pairs ≡ [] }
    {
        match file_argument(rt, usage, requests)? {
            Asked::Lines => Ok(Ok(Kept::InMemory(empty))),
            Asked::File(path) => Ok(Kept::open(rt, path, empty)),
            Asked::Ended(status) => Ok(Err(status)),
        }
    }

    // Opens the journal that has this path.
    fn open(rt: &HostRuntime, path: String, empty: B) -> Result<Kept<B, L, R>, ExitCode>
        requires empty { (B.holding empty).pairs ≡ [] }
    {
        let file = match File::open(rt, path.as_str()) {
            Ok(file) => file,
            Err(why) => return Err(failed(rt, path.as_str(), &why, 2)),
        };
        let mut reading = Reading::new(rt, path.as_str());
        let opened = Journaled::open_with(rt.alloc(), empty, file, &mut reading);
        reading.end();
        match opened {
            Ok(journal) => Ok(Kept::InFile(journal, path)),
            Err((why, _)) => Err(failed(rt, path.as_str(), &why, 2)),
        }
    }

    /// Returns the map.
    pub fn map(&self) -> &B {
        match self {
            Kept::InMemory(map) => map,
            Kept::InFile(journal, _) => journal.map(),
        }
    }

    /// Returns how a program ended over a file. If it ended because a change could not be written, standard error names
    /// the file and says why, and the exit status is 1.
    pub fn end(&self, rt: &HostRuntime, ended: io::Result<ExitCode>) -> io::Result<ExitCode> {
        match (self, ended) {
            (Kept::InFile(journal, path), Err(why)) if journal.is_stopped() => {
                Ok(failed(rt, path.as_str(), &why, 1))
            }
            (_, ended) => ended,
        }
    }
}

impl<L: Stored + Drop, R: Stored + Drop, I: WalkedIndex<L> + Drop, J: Index<R> + Drop> Kept<
    BijectiveMap<L, R, I, J>,
    L,
    R,
> {
    /// Writes the file anew, with a line for each pair. Returns false if there is no file.
    pub fn compact(&mut self) -> io::Result<bool> {
        match self {
            Kept::InMemory(_) => Ok(false),
            Kept::InFile(journal, _) => {
                stored(journal.compact())?;
                Ok(true)
            }
        }
    }
}
