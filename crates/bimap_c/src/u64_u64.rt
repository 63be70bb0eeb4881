//! The structs that C sees if both sides are numbers, and the bodies of the calls. They work on any map of two numbers.
ghost use Rattle.std.specs.Prelude.{◌≡◌, option_map};
ghost use Rattle.std.specs.Iterator.{IsFinite};
ghost use Rattle.std.specs.Map.Iter.{deref};
ghost use Rattle.bimap_c.specs.Calls.{IsWritten, Tells};
ghost use Rattle.bimap_c.specs.U64U64.{row, shown, IsFilledBy, Inserts, InsertsNew, InsertsFlagged, InsertsMany};

use crate::calls::{policy, refused};
use crate::status::{DONE, NO_MEMORY, NOT_FOUND, REFUSED};
use bimap::{Bijection, NotInserted};
use bimap_any::extend;

/// A left and its right.
#[repr(C)]
#[derive(Clone, Copy, Drop)]
pub struct Pair {
    pub left: u64,
    pub right: u64,
}

/// The pairs that an insertion overwrote. `kind` is 0 if there are none. It is 1 for the pair of the left alone, 2 for
/// the pair of the right alone, and 3 for one pair with both values. In these cases the pair is `first`. `kind` is 4
/// for two pairs: `first` is the pair of the left, and `second` is the pair of the right. A pair that does not exist is
/// two zeros.
#[repr(C)]
#[derive(Clone, Copy, Drop)]
pub struct Overwritten {
    pub kind: u32,
    pub first: Pair,
    pub second: Pair,
}

/// Two zeros, for a pair that does not exist.
pub(crate) const NO_PAIR: Pair = Pair { left: 0, right: 0 };

/// No overwritten pair.
pub(crate) const NOTHING: Overwritten = Overwritten {
    kind: 0,
    first: NO_PAIR,
    second: NO_PAIR,
};

// Returns what was overwritten, as C sees it.
fn show(answer: bimap::Overwritten<u64, u64>) -> Overwritten
    ensures { result ≡ shown answer }
{
    let (kind, (left, right), second) = match answer {
        bimap::Overwritten::Neither => (0, (0, 0), (0, 0)),
        bimap::Overwritten::Left(left, right) => (1, (left, right), (0, 0)),
        bimap::Overwritten::Right(left, right) => (2, (left, right), (0, 0)),
        bimap::Overwritten::Pair(left, right) => (3, (left, right), (0, 0)),
        bimap::Overwritten::Both(first, second) => (4, first, second),
    };
    Overwritten {
        kind,
        first: Pair { left, right },
        second: Pair {
            left: second.0,
            right: second.1,
        },
    }
}

/// Writes what was found, if something was, and returns the status.
pub(crate) fn tell_value(found: Option<&u64>, out: &mut u64) -> u32
    ensures told { Tells (option_map deref found.entry) result out.new }
    ensures out { IsWritten result out.old out.new }
{
    let Some(value) = found else {
        return NOT_FOUND;
    };
    *out = *value;
    DONE
}

/// Writes the pair that was removed, if one was, and returns the status.
pub(crate) fn tell_pair(taken: Option<(u64, u64)>, out: &mut Pair) -> u32
    ensures told { Tells (option_map row taken) result out.new }
    ensures out { IsWritten result out.old out.new }
{
    let Some((left, right)) = taken else {
        return NOT_FOUND;
    };
    *out = Pair { left, right };
    DONE
}

pub(crate) fn insert<B: Bijection<u64, u64>>(
    map: &mut B,
    left: u64,
    right: u64,
    overwritten: &mut Overwritten,
) -> u32
    ensures inserted { Inserts (B.holding map.old) result (B.holding map.new) (left, right)
        overwritten.new }
    ensures out { IsWritten result overwritten.old overwritten.new }
{
    match map.insert(left, right) {
        Ok(answer) => {
            *overwritten = show(answer);
            DONE
        }
        Err(_) => NO_MEMORY,
    }
}

pub(crate) fn insert_no_overwrite<B: Bijection<u64, u64>>(map: &mut B, left: u64, right: u64) -> u32
    ensures { InsertsNew (B.holding map.old) result (B.holding map.new) (left, right) }
{
    match map.insert_no_overwrite(left, right) {
        Ok(()) => DONE,
        Err(NotInserted::Occupied(_, _)) => REFUSED,
        Err(NotInserted::Memory(_, _)) => NO_MEMORY,
    }
}

pub(crate) fn insert_with<B: Bijection<u64, u64>>(
    map: &mut B,
    left: u64,
    right: u64,
    left_refuses: u8,
    right_refuses: u8,
    overwritten: &mut Overwritten,
) -> u32
    ensures inserted { InsertsFlagged (B.holding map.old) result (B.holding map.new) (left, right)
        left_refuses right_refuses overwritten.new }
    ensures out { IsWritten result overwritten.old overwritten.new }
{
    let Some(policy) = policy(left_refuses, right_refuses) else {
        return REFUSED;
    };
    match map.insert_with(left, right, policy) {
        Ok(answer) => {
            *overwritten = show(answer);
            DONE
        }
        Err(why) => refused(&why),
    }
}

pub(crate) fn insert_many<B: Bijection<u64, u64>>(
    map: &mut B,
    pairs: &[Pair],
    taken: &mut usize,
) -> u32
    ensures { InsertsMany (B.holding map.old) result (B.holding map.new) pairs.now taken.new }
{
    let items = pairs.iter().map(|pair| (pair.left, pair.right));
    match extend(map, items) {
        Ok(()) => {
            *taken = pairs.len();
            DONE
        }
        Err(stopped) => {
            *taken = stopped.taken;
            NO_MEMORY
        }
    }
}

/// Writes the pairs of an iterator to the front of a row, until the row is full or there are no more. Returns how
/// many it wrote.
pub(crate) fn write_row<'a, W: Iterator<Item = (&'a u64, &'a u64)>>(
    walk: W,
    row: &mut [Pair],
) -> usize
    requires { W.can_next walk × IsFinite (W.remaining walk) }
    ensures { IsFilledBy W.next_gives walk row.old result row.new }
{
    if row.is_empty() {
        return 0;
    }
    let mut filled = 0;
    for (left, right) in walk {
        row[filled] = Pair {
            left: *left,
            right: *right,
        };
        filled += 1;
        if filled == row.len() {
            return filled;
        }
    }
    filled
}
