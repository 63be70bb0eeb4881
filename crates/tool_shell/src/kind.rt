//! The calls that the shell makes on a map of any type, beside those of `Bijection`.
use crate::request::Request;
use crate::word::Word;
use bimap::btree::Count;
use bimap::{BijectiveMap, NoMemory, NotInverted, WalkedIndex};
use bimap_index::{CopiedIndex, HashIndex, Index};
use std::alloc::AllocError;
use std::fmt::Debug;
use std::hash::BuildHasher;
use test_support::Counter;

/// What the shell shows of a type of map.
pub trait Shown: Sized {
    /// Writes the map by `Debug`.
    fn show(&self, said: &mut String) -> Result<(), AllocError>;

    /// Exchanges the sides of the map, writes the result, and exchanges them again. If this runs out of memory, the map
    /// does not change.
    fn turned(self, said: &mut String) -> Result<Self, AllocError>;
}

/// A type of map on which the shell makes calls. Each function writes what the call returned. It returns whether the
/// type of map has this call.
pub trait ShellKind: Shown {
    /// Makes an iteration, a change, or a comparison with the other map. `clone` replaces the other map. The function
    /// also knows the ends and ranks of an ordered side.
    fn call(
        &mut self,
        other: &mut Self,
        request: &Request<'_>,
        said: &mut String,
    ) -> Result<bool, AllocError>;

    /// Makes a call with a meter.
    fn count(
        &mut self,
        request: &Request<'_>,
        meter: &mut Counter<Count>,
        said: &mut String,
    ) -> Result<bool, AllocError>;
}

/// A map of words.
pub type Words<I, J> = BijectiveMap<Word, Word, I, J>;

/// The left index of a map on which the shell makes calls. Each function writes what the call returned. It returns
/// whether a map with this left index has the call.
pub trait LeftIndex: CopiedIndex<Word> + WalkedIndex<Word> + Drop {
    /// Makes an iteration, a call at an end or a rank of the left side, a comparison, or a call that every map has.
    fn call_left<J: CopiedIndex<Word> + Drop>(
        bimap: &mut Words<Self, J>,
        other: &mut Words<Self, J>,
        request: &Request<'_>,
        said: &mut String,
    ) -> Result<bool, AllocError>;

    /// Makes the iteration over the values of a hashed right side.
    fn right_values<RS: BuildHasher>(
        bimap: &Words<Self, HashIndex<RS>>,
        request: &Request<'_>,
        said: &mut String,
    ) -> Result<bool, AllocError>;

    /// Makes a call at an end or a rank of the left side, with a meter.
    fn count_left<J: CopiedIndex<Word> + Drop>(
        bimap: &mut Words<Self, J>,
        request: &Request<'_>,
        meter: &mut Counter<Count>,
        said: &mut String,
    ) -> Result<bool, AllocError>;
}

/// The right index of a map with this left index, on which the shell makes calls. Each function writes what the call
/// returned. It returns whether a map with these indexes has the call.
pub trait RightIndex<I: LeftIndex>: CopiedIndex<Word> + WalkedIndex<Word> + Drop {
    /// Makes an iteration, or a call at an end or a rank, of the right side.
    fn call_right(
        bimap: &mut Words<I, Self>,
        request: &Request<'_>,
        said: &mut String,
    ) -> Result<bool, AllocError>;

    /// Makes a call at an end or a rank of the right side, with a meter.
    fn count_right(
        bimap: &mut Words<I, Self>,
        request: &Request<'_>,
        meter: &mut Counter<Count>,
        said: &mut String,
    ) -> Result<bool, AllocError>;
}

impl<I: WalkedIndex<Word> + Drop, J: WalkedIndex<Word> + Drop> Shown for Words<I, J> {
    fn show(&self, said: &mut String) -> Result<(), AllocError> {
        write!(said, "{self:?}")
    }

    fn turned(self, said: &mut String) -> Result<Self, AllocError> {
        match self.into_inverse() {
            Ok(inverse) => {
                write!(said, "Ok({inverse:?})")?;
                inverse.into_inverse().map_err(|_| AllocError)
            }
            Err(NotInverted { given }) => {
                write!(said, "Err(NotInverted)")?;
                Ok(given)
            }
        }
    }
}

/// Writes what a call returned. Returns `true`: the call exists.
pub fn say<T: Debug + Drop>(answer: T, said: &mut String) -> Result<bool, AllocError> {
    write!(said, "{answer:?}")?;
    Ok(true)
}

// Writes which pairs a call moved to a list, or why it moved none. Returns `true`: the call exists.
fn say_moved(
    answer: Result<(), NoMemory>,
    pairs: &[(Word, Word)],
    said: &mut String,
) -> Result<bool, AllocError> {
    match answer {
        Ok(()) => write!(said, "Ok({pairs:?})")?,
        Err(refused) => write!(said, "Err({refused:?})")?,
    }
    Ok(true)
}

// Replaces the other map by a copy, and writes the copy, or why there is none. Returns `true`: the call exists.
fn copy_to<I: CopiedIndex<Word> + WalkedIndex<Word> + Drop, J: CopiedIndex<Word> + Drop>(
    bimap: &Words<I, J>,
    other: &mut Words<I, J>,
    said: &mut String,
) -> Result<bool, AllocError> {
    match bimap.clone() {
        Ok(copy) => {
            *other = copy;
            write!(said, "Ok({other:?})")?;
        }
        Err(refused) => write!(said, "Err({refused:?})")?,
    }
    Ok(true)
}

// Makes the calls that keep or remove pairs by a test of the right.
fn parted<I: WalkedIndex<Word>, J: Index<Word>>(
    bimap: &mut Words<I, J>,
    request: &Request<'_>,
    said: &mut String,
) -> Result<bool, AllocError> {
    let least = request.first;
    let mut pairs = Vec::new(request.alloc);
    match request.call {
        "retain" => say(
            bimap.retain(|_left: &Word, right: &Word| *right >= least),
            said,
        ),
        "extract_into" => {
            let answer = bimap.extract_into(
                &mut pairs,
                |_left: &Word, right: &Word| *right >= least,
            );
            say_moved(answer, &pairs, said)
        }
        "drain_into" => {
            let answer = bimap.drain_into(&mut pairs);
            say_moved(answer, &pairs, said)
        }
        _ => Ok(false),
    }
}

// Makes insertions by the methods that users call. A run of calls uses those of `Bijection`.
fn insert<I: Index<Word>, J: Index<Word>>(
    bimap: &mut Words<I, J>,
    request: &Request<'_>,
    said: &mut String,
) -> Result<bool, AllocError> {
    let (left, right) = (request.first, request.second);
    match request.call {
        "insert" => say(bimap.insert(left, right), said),
        "insert_no_overwrite" => say(bimap.insert_no_overwrite(left, right), said),
        "insert_with" => say(bimap.insert_with(left, right, request.policy), said),
        "get_by_left_or_insert" => say(bimap.get_by_left_or_insert(left, right), said),
        _ => Ok(false),
    }
}

/// Makes a comparison with the other map, or a change. `clone` replaces the other map.
pub fn call<I: CopiedIndex<Word> + WalkedIndex<Word> + Drop, J: CopiedIndex<Word> + Drop>(
    bimap: &mut Words<I, J>,
    other: &mut Words<I, J>,
    request: &Request<'_>,
    said: &mut String,
) -> Result<bool, AllocError> {
    match request.call {
        "clone" => copy_to(bimap, other, said),
        "is_subset_of" => say(bimap.is_subset_of(other), said),
        "holds_same_pairs" => say(bimap.holds_same_pairs(other), said),
        _ => Ok(parted(bimap, request, said)? || insert(bimap, request, said)?),
    }
}

/// Makes the metered calls that every map has.
pub fn counted<I: Index<Word>, J: Index<Word>>(
    bimap: &mut Words<I, J>,
    request: &Request<'_>,
    meter: &mut Counter<Count>,
    said: &mut String,
) -> Result<bool, AllocError> {
    let (left, right) = (request.first, request.second);
    match request.call {
        "get_by_left" => say(bimap.get_by_left_metered(&left, meter), said),
        "get_by_right" => say(bimap.get_by_right_metered(&left, meter), said),
        "insert" => say(bimap.insert_metered(left, right, meter), said),
        "remove_by_left" => say(bimap.remove_by_left_metered(&left, meter), said),
        "remove_by_right" => say(bimap.remove_by_right_metered(&left, meter), said),
        "get_by_left_or_insert" => {
            say(
                bimap.get_by_left_or_insert_metered(left, right, meter),
                said,
            )
        }
        _ => Ok(false),
    }
}
