//! The work of the program, over any reader and writer. Each line is performed, and its reply is written.
ghost use Rattle.std.specs.Prelude.{◌≡◌, ◌≢◌, ◌⊎◌, [], OnOk, IfErr};
ghost use Rattle.std.specs.Io.Buffered.{writer_contents, writer_buffer};
ghost use Rattle.std.specs.IoError.{error_kind};
ghost use Rattle.std.specs.Io.KnownBytes.{Appends};
ghost use Rattle.bimap_rows.specs.Lines.{SaysInAll};
ghost use Rattle.bimap_rows.specs.Serving.{IsServed, IsReadOut, Stops, Ends};
ghost use Rattle.bimap_rows.specs.Steps.{TakesLine, StopsAtLine, IsFlushed};

use crate::held::{Held, write_held};
use crate::input::{read_line, without_return};
use crate::line::{Line, parse_line};
use crate::reply::write_reply;
use bimap::{Bijection, Reply, perform};
use std::alloc::Global;
use std::io::{BufRead, BufWriter, Error, ErrorKind, Write};

/// How the work ended.
#[derive(Clone, Copy, Debug, Eq, PartialEq)]
pub enum Ending {
    /// All lines were performed, and all pairs were written.
    Clean,
    /// A read failed, or there were more lines than a `u64` can count.
    InputFailed,
    /// A write or a flush failed.
    OutputFailed,
    /// The line of this number names no call. Lines are counted from 1.
    BadLine(u64),
    /// There was no memory.
    NoMemory,
}

// Performs the call of a line, and writes the reply.
fn take_line<B: Bijection<char, u32>, W: Write>(
    held: &mut B,
    output: &mut W,
    line: &[u8],
    number: u64,
) -> Result<(), Ending>
    ensures ok { OnOk result (TakesLine line.now (B.holding held.old).pairs
        (B.holding held.new).pairs (W.contents output.old) (W.contents output.new)) }
    ensures err { IfErr result (λ ending. StopsAtLine line.now number ending (W.contents output.old)
        (W.contents output.new)) }
{
    let call = match parse_line(without_return(line)) {
        Line::Empty => return Ok(()),
        Line::Bad => return Err(Ending::BadLine(number)),
        Line::Call(call) => call,
    };
    match perform(held, call, &|_: &(), _: &char, _: &u32| true) {
        Reply::NoRoom(_, _) => Err(Ending::NoMemory),
        reply => write_reply(output, reply).map_err(|_| Ending::OutputFailed),
    }
}

// Returns the ending for a line that could not be read.
fn read_fault(error: Error) -> Ending
    ensures memory { error_kind error ≡ ErrorKind.OutOfMemory → result ≡ Ending.NoMemory }
    ensures other { error_kind error ≢ ErrorKind.OutOfMemory → result ≡ Ending.InputFailed }
    ensures either { (result ≡ Ending.NoMemory) ⊎ (result ≡ Ending.InputFailed) }
{
    if error.kind() == ErrorKind::OutOfMemory {
        Ending::NoMemory
    } else {
        Ending::InputFailed
    }
}

// Performs all lines of the input on an empty map, and writes their replies.
fn serve_lines<B: Bijection<char, u32>, I: BufRead, W: Write>(
    alloc: Global,
    held: &mut B,
    input: &mut I,
    output: &mut W,
) -> Result<(), Ending>
    requires empty { (B.holding held.old).pairs ≡ [] }
    ensures end { OnOk result (IsReadOut (I.remaining input.old) (I.remaining input.new)) }
    ensures ok { OnOk result (IsServed SaysInAll (I.remaining input.old) (W.contents output.old)
        (W.contents output.new) (B.holding held.new).pairs []) }
    ensures err { IfErr result (λ ending. Stops ending (I.remaining input.old)
        (W.contents output.old) (W.contents output.new)) }
{
    let mut line = Vec::new(alloc);
    for taken in 0..u64::MAX {
        let ended = read_line(input, &mut line).map_err(read_fault)?;
        take_line(held, output, line.as_slice(), taken + 1)?;
        if !ended {
            return Ok(());
        }
    }
    Err(Ending::InputFailed)
}

// Flushes the output before the work ends.
fn finish<W: Write + Drop>(output: &mut BufWriter<W>, ending: Ending) -> Ending
    ensures { IsFlushed ending result (writer_contents W.contents output.old)
        (writer_contents W.contents output.new) (writer_buffer output.new) }
{
    output.flush().map_or(Ending::OutputFailed, |()| ending)
}

/// Performs the lines of the input on an empty map and writes their replies. At the end of the input it writes all
/// pairs.
///
/// It stops at the first line that names no call. It also stops when reading, writing or memory fails. Then it has
/// written the replies to the lines before, and it does not write the pairs. At the end it flushes the output, unless
/// writing has failed. Thus no byte stays in the buffer. Each line allocates for its own bytes, and its call allocates
/// what it needs.
pub fn serve<I: BufRead, W: Write + Drop>(
    alloc: Global,
    input: &mut I,
    output: &mut BufWriter<W>,
) -> Ending
    ensures ends { Ends result (I.remaining input.old) (I.remaining input.new)
        (writer_contents W.contents output.old) (writer_contents W.contents output.new) }
    ensures flushed { result ≢ Ending.OutputFailed → writer_buffer output.new ≡ [] }
{
    let mut held = Held::new(alloc);
    match serve_lines(alloc, &mut held, input, output) {
        Ok(()) => match write_held(output, &held) {
            Ok(()) => finish(output, Ending::Clean),
            Err(_) => Ending::OutputFailed,
        },
        Err(Ending::OutputFailed) => Ending::OutputFailed,
        Err(ending) => finish(output, ending),
    }
}
