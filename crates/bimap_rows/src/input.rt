//! Reads one line. This file does not know what lines say.
ghost use Rattle.std.specs.Prelude.{◌≡◌, IfOk, IfSome};
ghost use Rattle.bimap_rows.specs.Lines.{text_of};
ghost use Rattle.bimap_rows.specs.Steps.{IsNextLine};

use std::io::{self, BufRead};

/// Reads up to the next line feed, drops the line feed, and returns whether there was one. The function allocates for a
/// long line.
pub fn read_line<I: BufRead>(input: &mut I, line: &mut Vec<u8>) -> io::Result<bool>
    ensures { IfOk result (λ ended. IfSome (I.remaining input.old)
        (λ bytes. IsNextLine bytes line.new.items ended (I.remaining input.new))) }
{
    line.clear();
    input.read_until(b'\n', line)?;
    Ok(line.pop_if(|byte| *byte == b'\n').is_some())
}

/// Returns a line without one carriage return at its end.
pub fn without_return(line: &[u8]) -> &[u8]
    ensures { result.now ≡ text_of line.now }
{
    line.strip_suffix(b"\r").unwrap_or(line)
}
