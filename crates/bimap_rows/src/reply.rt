//! Writes the replies as lines. This file does not know how calls are performed.
ghost use Rattle.std.specs.Prelude.{OnOk};
ghost use Rattle.std.specs.Io.KnownBytes.{Appends};
ghost use Rattle.bimap_rows.specs.Lines.{answer_line, reply_line};

use bimap::{Overwritten, Reply};
use std::io::{self, Write};

// Writes which pairs an insertion overwrote.
fn write_answer<W: Write>(output: &mut W, answer: Overwritten<char, u32>) -> io::Result<()>
    ensures { OnOk result (Appends (W.contents output.old) (W.contents output.new)
        (answer_line answer)) }
{
    match answer {
        Overwritten::Neither => writeln!(output, "Neither"),
        Overwritten::Left(left, right) => writeln!(output, "Left {left} {right}"),
        Overwritten::Right(left, right) => writeln!(output, "Right {left} {right}"),
        Overwritten::Pair(left, right) => writeln!(output, "Pair {left} {right}"),
        Overwritten::Both((left, old_right), (old_left, right)) => {
            writeln!(output, "Both {left} {old_right} {old_left} {right}")
        }
    }
}

/// Writes the line of a reply. Two replies have no line: the one that says "out of memory", and the one that says
/// whether the map contains a value.
pub fn write_reply<W: Write>(output: &mut W, reply: Reply<char, u32>) -> io::Result<()>
    ensures { OnOk result (Appends (W.contents output.old) (W.contents output.new)
        (reply_line reply)) }
{
    match reply {
        Reply::Inserted(answer) => write_answer(output, answer),
        Reply::Put => writeln!(output, "Put"),
        Reply::Occupied(left, right) => writeln!(output, "Occupied {left} {right}"),
        Reply::LeftHeld(left, right) => writeln!(output, "LeftHeld {left} {right}"),
        Reply::RightHeld(left, right) => writeln!(output, "RightHeld {left} {right}"),
        Reply::Removed(Some((left, right))) => writeln!(output, "Removed {left} {right}"),
        Reply::Removed(None) => writeln!(output, "None"),
        Reply::Done => writeln!(output, "Done"),
        Reply::NoRoom(_, _) | Reply::Holds(_) => Ok(()),
    }
}
