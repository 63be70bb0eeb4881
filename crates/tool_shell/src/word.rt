//! The values of the shell. They are words, each with a note that no comparison sees.
use arrayvec::ArrayString;
use bimap::NoMemory;
use bimap_undo::CopyLeft;
use std::alloc::Global;
use std::fmt;
use tool_lines::number;

/// A word of up to 16 bytes. Comparisons and hashes see the text and not the note.
#[derive(Clone, Copy, Drop)]
#[derive_where(Eq, Hash, Ord, PartialEq, PartialOrd)]
pub struct Word {
    text: ArrayString<16>,
    #[derive_where(skip(EqHashOrd))]
    note: u32,
}

/// The note of the copies that a record makes. No other value should have it.
const COPIED: u32 = 4_000_000_000;

// Returns the word of a text. Returns `None` if the text is empty, is longer than 16 bytes, or has a sign of a range.
fn plain(text: &str, note: u32) -> Option<Word> {
    if text.is_empty() || text.contains('.') || text.contains('>') {
        return None;
    }
    let text = ArrayString::from(text).ok()?;
    Some(Word { text, note })
}

impl Word {
    /// Reads a text as a word with its note.
    pub fn read(text: &str) -> Option<Word> {
        match text.split_once('\'') {
            Some((word, note)) => plain(word, number(note)?),
            None => plain(text, 0),
        }
    }

    /// Makes the word that stands for none.
    pub fn none() -> Word {
        Word {
            text: ArrayString::new(),
            note: 0,
        }
    }
}

impl fmt::Debug for Word {
    fn fmt<W: fmt::Write>(&self, f: &mut fmt::Formatter<W>) -> fmt::Result {
        match self.note {
            0 => write!(f, "{}", self.text),
            note => write!(f, "{}'{note}", self.text),
        }
    }
}

impl CopyLeft for Word {
    /// Makes a copy that has its own note. A test then sees if a call returns the copy in place of the value.
    fn copy_left(&self, _alloc: Global) -> Result<Word, NoMemory> {
        Ok(Word {
            text: self.text,
            note: COPIED,
        })
    }
}
