//! The map that the program keeps, and the lines that show its pairs. No other file names the ordered map.
ghost use Rattle.std.specs.Prelude.{OnOk};
ghost use Rattle.std.specs.Io.KnownBytes.{Appends};
ghost use Rattle.bimap.specs.BTree.{holding};
ghost use Rattle.bimap_rows.specs.Serving.{tail};

use bimap::BiBTreeMap;
use std::io::{self, Write};

/// The map that the program keeps.
pub type Held = BiBTreeMap<char, u32>;

/// Writes the number of pairs, and a line for each pair in ascending order of the lefts.
pub fn write_held<W: Write>(output: &mut W, held: &Held) -> io::Result<()>
    ensures { OnOk result (Appends (W.contents output.old) (W.contents output.new)
        (tail (holding held.now).pairs)) }
{
    writeln!(output, "held {}", held.len())?;
    for (left, right) in held.iter() {
        writeln!(output, "{left} <> {right}")?;
    }
    Ok(())
}
