//! How the lines of a file become the changes of a map.
ghost use Rattle.std.specs.Prelude.{◌≡◌, ◌≢◌, ◌+◌, ◌<◌, ◌++◌, ◌∷◌, [], ℕ, List, length, Contains, OnOk, OnErr, IfOk, IfErr, Vec};
ghost use Rattle.std.specs.declared.alloc.Global.{Global};
ghost use Rattle.bimap_journal.specs.declared.disk.Operation.TheVariants.{Found};
ghost use Rattle.bimap_journal.specs.Calls.{Event, LeavesOnly, HasFailed};
ghost use Rattle.bimap_journal.specs.Lines.{HasLines, IsAtRest};
ghost use Rattle.bimap_journal.specs.Changes.{IsAfter, AreKept};
ghost use Rattle.bimap_journal.specs.Reading.{IsNext, IsLineFault, IsFileFault, IsReadTo, HasLinesOrNone, IsOpened, IsNotOpened, IsBeginFault};

use crate::change::{Change, change_of};
use crate::disk::Disk;
use crate::fault::NotOpened;
use crate::progress::Progress;
use crate::storage::Storage;
use crate::stored::Stored;
use crate::text::value_of;
use bimap::value::ReadFault;
use bimap::{Bijection, NoMemory};
use memchr::memchr;
use std::alloc::Global;
use std::io;

const NAME: &[u8] = b"jetukoma journal ";

/// The first line of a file.
pub const HEADER: &[u8] = b"jetukoma journal 1\n";

// After so many lines a program is told how far the reading is.
const STRIDE: usize = 10_000;

// What stands at the front of some bytes.
#[derive(Clone, Copy)]
enum Next<'a> {
    // A line with this text, and then these bytes.
    Line(&'a [u8], &'a [u8]),
    // The byte that closes the lines.
    End,
    // Neither.
    Damaged,
}

// Returns what stands at the front of some bytes.
fn next_line(bytes: &[u8]) -> Next<'_>
    ensures { IsNext bytes.now result }
{
    if bytes.is_empty() {
        return Next::Damaged;
    }
    if bytes[0] == b'-' {
        return Next::End;
    }
    if bytes[0] != b'+' {
        return Next::Damaged;
    }
    let rest = &bytes[1..];
    match memchr(b'\n', rest) {
        Some(long) => Next::Line(&rest[..long], &rest[long + 1..]),
        None => Next::Damaged,
    }
}

// Makes a change on a map.
fn make<L: Eq + Drop, R: Eq + Drop, B: Bijection<L, R>>(
    map: &mut B,
    change: Change<L, R>,
) -> Result<(), NoMemory>
    ensures { OnOk result (IsAfter L.eq R.eq change (Contains (B.holding map.old).pairs)
        (Contains (B.holding map.new).pairs)) }
{
    match change {
        Change::Insert(left, right) => match map.insert(left, right) {
            Ok(_) => Ok(()),
            Err(_) => Err(NoMemory),
        },
        Change::RemoveByLeft(left) => {
            let _ = map.remove_by_left(&left);
            Ok(())
        }
        Change::RemoveByRight(right) => {
            let _ = map.remove_by_right(&right);
            Ok(())
        }
        Change::Clear => {
            map.clear();
            Ok(())
        }
    }
}

// Makes the change of a line on a map. The line begins at this place.
fn make_line<L: Stored + Drop, R: Stored + Drop, B: Bijection<L, R>>(
    alloc: Global,
    map: &mut B,
    text: &[u8],
    at: usize,
) -> Result<(), NotOpened>
    ensures made { (texts : List (List ℕ))
        → AreKept L.eq R.eq L.reads R.reads texts (Contains (B.holding map.old).pairs)
        → OnOk result (AreKept L.eq R.eq L.reads R.reads (texts ++ text.now ∷ [])
        (Contains (B.holding map.new).pairs)) }
    ensures fault { IfErr result (IsLineFault L.reads R.reads text.now at) }
{
    let value = match value_of(alloc, text) {
        Ok(Some(value)) => value,
        Ok(None) => return Err(NotOpened::Damaged(at)),
        Err(_) => return Err(NotOpened::Memory),
    };
    let change: Change<L, R> = match change_of(alloc, &value) {
        Ok(change) => change,
        Err(ReadFault::Bad) => return Err(NotOpened::Damaged(at)),
        Err(ReadFault::Memory) => return Err(NotOpened::Memory),
    };
    match make(map, change) {
        Ok(()) => Ok(()),
        Err(_) => Err(NotOpened::Memory),
    }
}

// Makes the changes of a file on an empty map, and returns the place of the byte that closes the lines.
fn replay<L: Stored + Drop, R: Stored + Drop, B: Bijection<L, R>, P: Progress>(
    alloc: Global,
    map: &mut B,
    bytes: &[u8],
    progress: &mut P,
) -> Result<usize, NotOpened>
    requires empty { (B.holding map.old).pairs ≡ [] }
    requires some { bytes.now ≢ [] }
    ensures read { IfOk result (λ end. IsReadTo L.eq R.eq L.reads R.reads bytes.now end
        (Contains (B.holding map.new).pairs)) }
    ensures inside { IfOk result (λ end. end < length bytes.now) }
    ensures fault { IfErr result (IsFileFault L.reads R.reads bytes.now) }
{
    if !bytes.starts_with(HEADER) {
        return if bytes.starts_with(NAME) {
            Err(NotOpened::OtherVersion)
        } else {
            Err(NotOpened::NotAJournal)
        };
    }
    let mut rest = &bytes[HEADER.len()..];
    let mut lines = 0usize;
    loop {
        let at = bytes.len() - rest.len();
        if lines % STRIDE == 0 {
            progress.at(at, bytes.len());
        }
        match next_line(rest) {
            Next::Line(text, behind) => match make_line(alloc, map, text, at) {
                Ok(()) => rest = behind,
                Err(fault) => return Err(fault),
            },
            Next::End => return Ok(at),
            Next::Damaged => return Err(NotOpened::Damaged(at)),
        }
        lines = lines.wrapping_add(1);
    }
}

// Cuts off what stands behind the byte that closes the lines. It may be there after a crash.
fn repair<S: Storage + Drop>(disk: &mut Disk<S>, end: usize, long: usize) -> io::Result<()>
    requires { end < long }
    ensures at_rest { (texts : List (List ℕ)) → IsAtRest disk.old end texts
        → OnOk result (IsAtRest disk.new end texts) }
    ensures any_moment { (texts : List (List ℕ)) → IsAtRest disk.old end texts
        → LeavesOnly disk.old disk.new (λ file. HasLines file texts) }
    ensures cause { OnErr result (HasFailed disk.new) }
{
    if long == end + 1 {
        return Ok(());
    }
    disk.set_len(end + 1)?;
    disk.sync()
}

// Makes an empty file a journal without lines.
fn begin<S: Storage + Drop>(alloc: Global, disk: &mut Disk<S>) -> Result<usize, NotOpened>
    ensures rests { IfOk result (λ end. IsAtRest disk.new end []) }
    ensures any_moment { (calls : List Event) (found : Vec ℕ Global)
        → disk.old ≡ (Found, found) ∷ calls → found.items ≡ []
        → LeavesOnly disk.old disk.new (HasLinesOrNone []) }
    ensures cause { IfErr result (IsBeginFault disk.old disk.new) }
{
    let mut first = Vec::new(alloc);
    let (Ok(()), Ok(())) = (first.extend_from_slice(HEADER), first.push(b'-')) else {
        return Err(NotOpened::Memory);
    };
    match disk.replace(&first) {
        Ok(()) => Ok(HEADER.len()),
        Err(error) => Err(NotOpened::Failed(error)),
    }
}

/// Reads a file into an empty map, and repairs its end. Returns the place of the byte that closes the lines.
pub fn read_into<
    L: Stored + Drop,
    R: Stored + Drop,
    B: Bijection<L, R>,
    S: Storage + Drop,
    P: Progress,
>(alloc: Global, map: &mut B, disk: &mut Disk<S>, progress: &mut P) -> Result<usize, NotOpened>
    requires empty { (B.holding map.old).pairs ≡ [] }
    ensures opened { IfOk result (λ end. IsOpened L.eq R.eq L.reads R.reads disk.old disk.new end
        (Contains (B.holding map.new).pairs)) }
    ensures refused { IfErr result (IsNotOpened L.reads R.reads disk.old disk.new) }
{
    let bytes = match disk.read(alloc) {
        Ok(bytes) => bytes,
        Err(error) => return Err(NotOpened::Failed(error)),
    };
    if bytes.is_empty() {
        return begin(alloc, disk);
    }
    match replay(alloc, map, &bytes, progress) {
        Ok(end) => match repair(disk, end, bytes.len()) {
            Ok(()) => Ok(end),
            Err(error) => Err(NotOpened::Failed(error)),
        },
        Err(fault) => Err(fault),
    }
}
