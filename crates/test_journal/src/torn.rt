//! The contents of a file that a crash may leave of one change. It does not know what stands in the file.
use crate::world::Change;
use std::alloc::{AllocError, Global};

// What a crash may leave in place of a byte. The first three are bytes of a journal's own.
const GARBAGE: [u8; 4] = [b'+', b'-', b'\n', 0xff];

/// Returns the bytes in front of a place.
pub fn front(bytes: &[u8], at: usize) -> &[u8] {
    bytes.get(..at).unwrap_or(bytes)
}

/// Returns the bytes from a place on.
pub fn behind(bytes: &[u8], at: usize) -> &[u8] {
    bytes.get(at..).unwrap_or(&[])
}

/// Returns three parts as one.
pub fn joined(
    alloc: Global,
    first: &[u8],
    second: &[u8],
    third: &[u8],
) -> Result<Vec<u8>, AllocError> {
    let mut file = first.to_vec(alloc)?;
    file.extend_from_slice(second)?;
    file.extend_from_slice(third)?;
    Ok(file)
}

// Appends what a torn write of many bytes may leave.
fn push_torn(
    alloc: Global,
    old: &[u8],
    at: usize,
    bytes: &[u8],
    files: &mut Vec<Vec<u8>>,
) -> Result<(), AllocError> {
    let kept = front(old, at);
    for count in 0..=bytes.len() {
        let done = front(bytes, count);
        let rest = behind(bytes, count);
        // The first bytes were written, and the file is as long as before, or ends with them.
        files.push(joined(alloc, kept, done, behind(old, at.saturating_add(count)))?)?;
        files.push(joined(alloc, kept, done, &[])?)?;
        // The last bytes were written, and the first ones are zeros.
        let mut zeros = vec![in alloc; 0u8; count]?;
        files.push(joined(alloc, kept, &zeros, rest)?)?;
        // One byte is another.
        if let Some((_, rest)) = rest.split_first() {
            for byte in GARBAGE {
                let mut file = joined(alloc, kept, done, &[byte])?;
                file.extend_from_slice(rest)?;
                files.push(file)?;
            }
        }
    }
    Ok(())
}

// Appends what a torn cut may leave.
fn push_torn_cut(
    alloc: Global,
    old: &[u8],
    len: usize,
    files: &mut Vec<Vec<u8>>,
) -> Result<(), AllocError> {
    let kept = front(old, len);
    files.push(old.to_vec(alloc)?)?;
    files.push(kept.to_vec(alloc)?)?;
    for byte in GARBAGE {
        files.push(joined(alloc, kept, &[byte], behind(old, len.saturating_add(1)))?)?;
        files.push(joined(alloc, kept, &[byte], &[])?)?;
    }
    Ok(())
}

/// Appends contents that a crash may leave of a change, where the file was `old` before. The contents of a write of one
/// byte and of a replacement are all that there may be. Of other changes they are a choice.
pub fn push_outcomes(
    alloc: Global,
    old: &[u8],
    change: &Change,
    files: &mut Vec<Vec<u8>>,
) -> Result<(), AllocError> {
    match change {
        Change::Write(at, bytes) if bytes.len() > 1 => push_torn(alloc, old, *at, bytes, files),
        Change::Write(at, bytes) => {
            files.push(old.to_vec(alloc)?)?;
            let rest = behind(old, at.saturating_add(bytes.len()));
            files.push(joined(alloc, front(old, *at), bytes, rest)?)?;
            Ok(())
        }
        Change::Cut(len) => push_torn_cut(alloc, old, *len, files),
        Change::Replace(bytes) => {
            files.push(old.to_vec(alloc)?)?;
            files.push(bytes.as_slice().to_vec(alloc)?)?;
            Ok(())
        }
    }
}
