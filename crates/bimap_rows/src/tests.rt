//! Tests what no run of the program shows: reads that fail in mid-stream, the number of flushes, and a refusal of each
//! allocation.
use crate::serve::{Ending, serve};
use std::alloc::{AllocError, Global};
use std::io::{self, BufReader, BufWriter, Error, ErrorKind, Read, Write};
use std::test::Fail;
use test_support::MemoryLimit;

/// A reader that gives one chunk at each read and then fails. An empty chunk is the end of the input.
#[derive(Drop)]
struct Chunks {
    chunks: &'static [&'static [u8]],
    at: usize,
}

impl Read for Chunks {
    fn read(&mut self, buf: &mut [u8]) -> io::Result<usize> {
        let Some(chunk) = self.chunks.get(self.at) else {
            return Err(Error::from(ErrorKind::Other));
        };
        self.at = self.at.saturating_add(1);
        let mut bytes: &[u8] = chunk;
        bytes.read(buf)
    }
}

/// A writer that keeps all bytes and counts its flushes. Its flushes can fail.
#[derive(Drop)]
struct Output {
    bytes: Vec<u8>,
    flushes: u32,
    fails: bool,
}

impl Write for Output {
    fn write(&mut self, buf: &[u8]) -> io::Result<usize> {
        self.bytes.write(buf)
    }

    fn flush(&mut self) -> io::Result<()> {
        self.flushes = self.flushes.saturating_add(1);
        (!self.fails)
            .then_some(())
            .ok_or(Error::from(ErrorKind::Other))
    }
}

// What is read, what is written, and the ending if the flush does not fail.
const ENDINGS: [(&'static [&'static [u8]], &str, Ending); 7] = [
    (&[b"clear", b""], "Done\nheld 0\n", Ending::Clean),
    (&[b"clear\nx\n", b""], "Done\n", Ending::BadLine(2)),
    (&[b"clear\n"], "Done\n", Ending::InputFailed),
    (&[], "", Ending::InputFailed),
    (&[b"clear\nput"], "Done\n", Ending::InputFailed),
    (&[b"clear\n", b"clear"], "Done\n", Ending::InputFailed),
    (&[b"cl", b"ear", b""], "Done\nheld 0\n", Ending::Clean),
];

#[test]
fn each_ending_flushes_once(rt: HostRuntime) -> Result<(), Fail> {
    for (chunks, written, ending) in ENDINGS {
        for (fails, want) in [(false, ending), (true, Ending::OutputFailed)] {
            let mut input = BufReader::new(rt.alloc(), Chunks { chunks, at: 0 })?;
            let output = Output {
                bytes: Vec::new(rt.alloc()),
                flushes: 0,
                fails,
            };
            let mut output = BufWriter::new(rt.alloc(), output)?;
            let ending = serve(rt.alloc(), &mut input, &mut output);
            assert_eq!(rt; ending, want, "{written}");
            let output = output.get_ref();
            assert_eq!(rt; output.bytes.as_slice(), written.as_bytes());
            assert_eq!(rt; output.flushes, 1, "{written}");
        }
    }
    Ok(())
}

// Serves the lines, with no buffer before the output.
fn serve_lines(alloc: Global, lines: &[u8], output: &mut Vec<u8>) -> io::Result<Ending> {
    let mut input = lines;
    let mut output = BufWriter::with_capacity(alloc, 0, output)?;
    Ok(serve(alloc, &mut input, &mut output))
}

// Returns how much was written when memory was refused for the last time. Returns `None` if memory was never refused,
// or if an ending or the lines written before it are wrong.
fn last_refusal(alloc: Global, lines: &[u8], all: &[u8]) -> Result<Option<usize>, AllocError> {
    let mut output = Vec::with_capacity(alloc, 4096)?;
    let mut limit = MemoryLimit::begin(alloc, 200)?;
    let mut refused = None;
    for _ in 0..200 {
        output.clear();
        let ending = serve_lines(alloc, lines, &mut output);
        match (ending, output.as_slice()) {
            (Ok(Ending::Clean), whole) => return Ok(refused.filter(|_| whole == all)),
            (Ok(Ending::NoMemory), [] | [.., b'\n']) if all.starts_with(output.as_slice()) => {}
            _ => return Ok(None),
        }
        refused = Some(output.len());
        limit.raise()?;
    }
    Ok(None)
}

// The lines, the replies before the last refusal, and all that is written. The fifth of five pairs needs a second
// growth of the map.
const REFUSED: [(&str, &str, &str); 7] = [
    ("insert a 1\n", "", "Neither\nheld 1\na <> 1\n"),
    ("put a 1", "", "Put\nheld 1\na <> 1\n"),
    ("insert-with or a 1\r\n", "", "Neither\nheld 1\na <> 1\n"),
    ("\ndrop-left a\n", "", "None\nheld 0\n"),
    ("drop-right 1", "", "None\nheld 0\n"),
    ("clear\n", "", "Done\nheld 0\n"),
    (
        "put a 1\nput b 2\nput c 3\nput d 4\nput e 5\n",
        "Put\nPut\nPut\nPut\n",
        "Put\nPut\nPut\nPut\nPut\nheld 5\na <> 1\nb <> 2\nc <> 3\nd <> 4\ne <> 5\n",
    ),
];

#[test]
fn want_of_memory_ends_the_work(rt: HostRuntime) -> Result<(), Fail> {
    for (lines, before, all) in REFUSED {
        let refused = last_refusal(rt.alloc(), lines.as_bytes(), all.as_bytes())?;
        assert_eq!(rt; refused, Some(before.len()), "{lines}");
    }
    Ok(())
}
