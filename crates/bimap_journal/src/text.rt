//! The text of a line: a JSON value with a checksum. It does not know what the value means.
ghost use Rattle.std.specs.Prelude.{◌≡◌, ◌≢◌, ◌<◌, ◌≤◌, ◌++◌, ◌∷◌, [], ℕ, List, drop, OnOk, IfOk, IfErr, IfSome, IfNone, Contains};
ghost use Rattle.serde_json.specs.Data.{Data, depth};
ghost use Rattle.serde_json.specs.View.{view};
ghost use Rattle.serde_json.specs.Read.{max_depth};
ghost use Rattle.bimap_journal.specs.declared.text.NotWritten.TheVariants.{Memory};
ghost use Rattle.bimap_journal.specs.Lines.{lines};
ghost use Rattle.bimap_journal.specs.Texts.{checksum as sum_of, digit as digit_of, digits as digits_of, Says, IsFault};

use serde_json::Value;
use std::alloc::{AllocError, AllocFailed, Global};
use std::str;

/// Returns the checksum of these bytes: FNV-1a with 32 bits.
fn checksum(bytes: &[u8]) -> u32
    ensures { result ≡ sum_of bytes.now }
{
    bytes.iter().fold(
        2_166_136_261u32,
        |sum, byte| (sum ^ *byte as u32).wrapping_mul(16_777_619),
    )
}

// Returns a hexadecimal digit.
fn digit(n: u32) -> u8
    requires { n < 16 }
    ensures { result ≡ digit_of n }
{
    if n < 10 {
        b'0' + n as u8
    } else {
        b'a' + (n as u8 - 10)
    }
}

// Returns a number as eight hexadecimal digits.
fn digits(n: u32) -> [u8; 8]
    ensures { result ≡ digits_of 8 n }
{
    [
        digit(n / 16 / 16 / 16 / 16 / 16 / 16 / 16 % 16),
        digit(n / 16 / 16 / 16 / 16 / 16 / 16 % 16),
        digit(n / 16 / 16 / 16 / 16 / 16 % 16),
        digit(n / 16 / 16 / 16 / 16 % 16),
        digit(n / 16 / 16 / 16 % 16),
        digit(n / 16 / 16 % 16),
        digit(n / 16 % 16),
        digit(n % 16),
    ]
}

/// Why a value was not written as a line.
pub enum NotWritten {
    /// Out of memory.
    Memory,
    /// The text has a line break.
    LineBreak,
}

impl From<AllocError> for NotWritten {
    ghost from_gives = { λ _ e. e ≡ Memory };

    fn from(_: AllocError) -> NotWritten {
        NotWritten::Memory
    }
}

impl<T: Drop> From<AllocFailed<T>> for NotWritten {
    ghost from_gives = { λ _ e. e ≡ Memory };

    fn from(_: AllocFailed<T>) -> NotWritten {
        NotWritten::Memory
    }
}

// Returns the text of a line that says a value.
fn text_of(alloc: Global, value: &Value) -> Result<Vec<u8>, NotWritten>
    requires { depth (view value.now) ≤ max_depth }
    ensures says { IfOk result (λ text. Says text.items (view value.now)) }
    ensures unbroken { IfOk result (λ text. ¬ Contains text.items 10) }
    ensures fault { IfErr result (IsFault (view value.now)) }
{
    let json = value.to_string(alloc)?;
    let json = json.as_bytes();
    if json.contains(&b'\n') {
        return Err(NotWritten::LineBreak);
    }
    let mut text = Vec::new(alloc);
    text.extend_from_slice(json)?;
    text.push(b' ')?;
    text.extend_from_slice(&digits(checksum(json)))?;
    Ok(text)
}

/// Appends the line of a value to a group of lines, or to other bytes. The first line of a group lacks its first byte.
pub fn push_line(alloc: Global, group: &mut Vec<u8>, value: &Value) -> Result<(), NotWritten>
    requires { depth (view value.now) ≤ max_depth }
    ensures pushed { (texts : List (List ℕ)) → group.old.items ≡ drop 1 (lines texts)
        → OnOk result ((text : List ℕ) × Says text (view value.now) × (¬ Contains text 10)
        × (group.new.items ≡ drop 1 (lines (texts ++ text ∷ [])))) }
    ensures behind { group.old.items ≢ [] → OnOk result ((text : List ℕ)
        × Says text (view value.now) × (¬ Contains text 10)
        × (group.new.items ≡ group.old.items ++ lines (text ∷ []))) }
    ensures fault { IfErr result (IsFault (view value.now)) }
{
    let text = text_of(alloc, value)?;
    if !group.is_empty() {
        group.push(b'+')?;
    }
    group.extend_from_slice(&text)?;
    group.push(b'\n')?;
    Ok(())
}

/// Returns the JSON value that a line says, or `None` if it says none.
pub fn value_of(alloc: Global, text: &[u8]) -> Result<Option<Value>, AllocError>
    ensures { IfOk result (λ found. IfSome found (λ value. Says text.now (view value))
        × IfNone found ((value : Data) → Says text.now value → ⊥)) }
{
    if text.len() < 9 {
        return Ok(None);
    }
    let (json, sum) = text.split_at(text.len() - 9);
    if sum[0] != b' ' || &sum[1..] != digits(checksum(json)).as_slice() {
        return Ok(None);
    }
    let Ok(json) = str::from_utf8(json) else {
        return Ok(None);
    };
    match Value::from_str(alloc, json) {
        Ok(value) => Ok(Some(value)),
        Err(error) if error.is_memory() => Err(AllocError),
        Err(_) => Ok(None),
    }
}
