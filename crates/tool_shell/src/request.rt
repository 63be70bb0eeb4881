//! A line as a call.
use crate::word::Word;
use bimap::{Call, OnHeld, Overwritten, Policy};
use std::alloc::Global;
use std::ops::Bound;

/// A step of an iterator.
#[derive(Clone, Copy)]
pub enum Step {
    Front,
    Back,
    Len,
    Copy,
    Rest,
}

/// The map on which a call is made.
#[derive(Clone, Copy, Eq, PartialEq)]
pub enum On {
    /// The map.
    Bimap,
    /// The map, with a meter. The answer shows what the meter counted.
    Counted,
    /// The map, with a meter. The answer compares what the meter counted with the bound.
    Bounded,
    /// The map with its sides exchanged.
    Inverse,
    /// The map that records its changes.
    Record,
}

/// How much memory there is for a call.
#[derive(Clone, Copy, Eq, PartialEq)]
pub enum Memory {
    Plenty,
    Refused,
    Rising,
}

/// A call with its words. A field that the call does not use has an empty value.
#[derive(Drop)]
pub struct Request<'a> {
    pub alloc: Global,
    pub on: On,
    pub memory: Memory,
    pub call: &'a str,
    pub kind: usize,
    pub policy: Policy,
    pub first: Word,
    pub second: Word,
    pub number: usize,
    pub pairs: Vec<(Word, Word)>,
    pub answer: Overwritten<Word, Word>,
    pub calls: Vec<Call<Word, Word, Word>>,
    pub range: (Bound<Word>, Bound<Word>),
    pub steps: Vec<Step>,
    pub types: (&'a str, &'a str),
    pub text: &'a str,
}

pub const OVERWRITE: Policy = Policy {
    left: OnHeld::Overwrite,
    right: OnHeld::Overwrite,
};

impl<'a> Request<'a> {
    /// Makes a call with no words.
    pub fn of(alloc: Global, on: On, memory: Memory, call: &'a str) -> Request<'a> {
        Request {
            alloc,
            on,
            memory,
            call,
            kind: 0,
            policy: OVERWRITE,
            first: Word::none(),
            second: Word::none(),
            number: 0,
            pairs: Vec::new(alloc),
            answer: Overwritten::Neither,
            calls: Vec::new(alloc),
            range: (Bound::Unbounded, Bound::Unbounded),
            steps: Vec::new(alloc),
            types: ("", ""),
            text: "",
        }
    }
}
