//! The six types of map, and what each answers to a line.
use crate::kind::{LeftIndex, RightIndex, Words};
use crate::request::{On, Request};
use crate::session::Session;
use crate::short_memory;
use crate::word::Word;
use bimap::{
    BiBTreeHashMap, BiBTreeMap, BiHashBTreeMap, BiHashMap, BiInsertionOrderMap, BijectiveMap,
    NoMemory,
};
use bimap_index::{CompactedIndex, DefaultIndex};
use std::alloc::AllocError;
use std::hash::BuildHasherDefault;
use test_support::{Crowded, Zero};
use tool_shell_json::{JsonCall, json_call};

/// The names of the types of map in lines and answers.
pub const NAMES: [&str; 6] = [
    "ordered",
    "hashed",
    "ordered-hashed",
    "hashed-ordered",
    "crowded",
    "insertion-order",
];

/// Returns whether the left side of a type of map is ordered.
pub fn has_ordered_left(kind: usize) -> bool {
    kind == 0 || kind == 2
}

/// Returns whether the right side of a type of map is ordered.
pub fn has_ordered_right(kind: usize) -> bool {
    kind == 0 || kind == 3
}

// Makes a map of a type with the default hash builders, if the call makes one.
fn made<I: DefaultIndex<Word> + Drop, J: DefaultIndex<Word> + Drop>(
    request: &Request<'_>,
) -> Option<Result<Words<I, J>, NoMemory>> {
    match request.call {
        "new" if request.on == On::Bimap => Some(Ok(BijectiveMap::new(request.alloc))),
        "with_capacity" => Some(BijectiveMap::with_capacity(request.alloc, request.number)),
        _ => None,
    }
}

// Makes a call on a map of a type with the default hash builders. `built` is the map, if the call was passed hash
// builders.
fn call_default<
    I: LeftIndex + CompactedIndex<Word> + DefaultIndex<Word>,
    J: RightIndex<I> + CompactedIndex<Word> + DefaultIndex<Word>,
>(
    begun: &mut Option<Session<Words<I, J>>>,
    built: Option<Words<I, J>>,
    request: &mut Request<'_>,
    said: &mut String,
) -> Result<bool, AllocError> {
    let made = match built {
        Some(bimap) => Some(Ok(bimap)),
        None => made(request),
    };
    short_memory::call(begun, made, request, said)
}

// Each type of map has a type here, whose session its first call makes. The callers are proved without the contracts of
// the map. With all of them in one struct the proof took more than seven minutes.

/// A map with two ordered sides.
#[derive(Drop)]
struct Ordered {
    session: Option<Session<BiBTreeMap<Word, Word>>>,
}

impl Ordered {
    fn call(&mut self, request: &mut Request<'_>, said: &mut String) -> Result<bool, AllocError> {
        call_default(&mut self.session, None, request, said)
    }
}

/// A map with two hashed sides.
#[derive(Drop)]
struct Hashed {
    session: Option<Session<BiHashMap<Word, Word>>>,
}

impl Hashed {
    fn call(&mut self, request: &mut Request<'_>, said: &mut String) -> Result<bool, AllocError> {
        let built = match request.call {
            "with_hashers" => Some(BiHashMap::with_hashers(
                request.alloc,
                BuildHasherDefault::new(),
                BuildHasherDefault::new(),
            )),
            _ => None,
        };
        call_default(&mut self.session, built, request, said)
    }
}

/// A map with an ordered left side and a hashed right side.
#[derive(Drop)]
struct OrderedLeft {
    session: Option<Session<BiBTreeHashMap<Word, Word>>>,
}

impl OrderedLeft {
    fn call(&mut self, request: &mut Request<'_>, said: &mut String) -> Result<bool, AllocError> {
        let built = match request.call {
            "with_hasher" => Some(BiBTreeHashMap::with_hasher(
                request.alloc,
                BuildHasherDefault::new(),
            )),
            _ => None,
        };
        call_default(&mut self.session, built, request, said)
    }
}

/// A map with a hashed left side and an ordered right side.
#[derive(Drop)]
struct OrderedRight {
    session: Option<Session<BiHashBTreeMap<Word, Word>>>,
}

impl OrderedRight {
    fn call(&mut self, request: &mut Request<'_>, said: &mut String) -> Result<bool, AllocError> {
        let built = match request.call {
            "with_hasher" => Some(BiHashBTreeMap::with_hasher(
                request.alloc,
                BuildHasherDefault::new(),
            )),
            _ => None,
        };
        call_default(&mut self.session, built, request, said)
    }
}

/// A map with two hashed sides, in which all keys have the same hash.
#[derive(Drop)]
struct OneNumber {
    session: Option<Session<Crowded<Word, Word>>>,
}

impl OneNumber {
    fn call(&mut self, request: &mut Request<'_>, said: &mut String) -> Result<bool, AllocError> {
        let (alloc, capacity) = (request.alloc, request.number);
        let is_new = request.call == "new" && request.on == On::Bimap;
        let made = if is_new || request.call == "with_hashers" {
            Some(Ok(BiHashMap::with_hashers(alloc, Zero, Zero)))
        } else if request.call == "with_capacity" {
            Some(BiHashMap::with_capacity_and_hashers(alloc, capacity, Zero, Zero))
        } else {
            None
        };
        short_memory::call(&mut self.session, made, request, said)
    }
}

/// A map with two hashed sides, which is iterated in insertion order.
#[derive(Drop)]
struct InsertionOrder {
    session: Option<Session<BiInsertionOrderMap<Word, Word>>>,
}

impl InsertionOrder {
    fn call(&mut self, request: &mut Request<'_>, said: &mut String) -> Result<bool, AllocError> {
        let built = match request.call {
            "with_hashers" => Some(BiInsertionOrderMap::with_hashers(
                request.alloc,
                BuildHasherDefault::new(),
                BuildHasherDefault::new(),
            )),
            _ => None,
        };
        call_default(&mut self.session, built, request, said)
    }
}

/// A session of each type of map.
#[derive(Drop)]
pub struct Kinds {
    ordered: Ordered,
    hashed: Hashed,
    ordered_left: OrderedLeft,
    ordered_right: OrderedRight,
    crowded: OneNumber,
    insertion_order: InsertionOrder,
}

impl Kinds {
    /// Makes sessions that have not begun.
    pub fn new() -> Kinds {
        Kinds {
            ordered: Ordered { session: None },
            hashed: Hashed { session: None },
            ordered_left: OrderedLeft { session: None },
            ordered_right: OrderedRight { session: None },
            crowded: OneNumber { session: None },
            insertion_order: InsertionOrder { session: None },
        }
    }

    /// Makes a call on the type of map of this number, and writes what it returned. Returns whether the type of map has
    /// the call.
    pub fn call(
        &mut self,
        kind: usize,
        request: &mut Request<'_>,
        said: &mut String,
    ) -> Result<bool, AllocError> {
        request.kind = kind;
        if request.call == "json" || request.call == "json_pairs" {
            let json = JsonCall {
                alloc: request.alloc,
                of_pairs: request.call == "json_pairs",
                types: request.types,
                policy: request.policy,
                text: request.text,
            };
            return json_call(kind, &json, said);
        }
        match kind {
            0 => self.ordered.call(request, said),
            1 => self.hashed.call(request, said),
            2 => self.ordered_left.call(request, said),
            3 => self.ordered_right.call(request, said),
            4 => self.crowded.call(request, said),
            _ => self.insertion_order.call(request, said),
        }
    }
}
