//! How one side of a map is written in JSON and read back.
ghost use Rattle.std.specs.Prelude.{◌≡◌, ℕ, List, IfOk, OnOk, string_bytes};
ghost use Rattle.serde_json.specs.Data.{Data};
ghost use Rattle.serde_json.specs.View.{view};
ghost use Rattle.bimap.specs.JsonReading.{Reads, ReadsBack};

use bimap_base::NoMemory;
use serde_json::Value;
use std::alloc::Global;
use thiserror::Error;

/// Why nothing was read.
#[derive(Clone, Copy, Debug, Eq, Error, PartialEq)]
pub enum ReadFault {
    /// The text or JSON value reads as no value of this type.
    #[error("no value of this type")]
    Bad,
    /// Out of memory. The text or JSON value reads as a value.
    #[error("out of memory")]
    Memory,
}

/// A left in JSON: the key of an entry.
///
/// What a value is written as reads as an equal value, and as no other. So lefts that are not equal have different
/// keys.
///
/// A type of yours says what it is written as (`writes_key`) and what a text reads as (`reads_key`). Most such types
/// call a type that has the trait. Here a seat is written as its number:
///
/// ```
/// ghost use Rattle.bimap.specs.JsonTexts.{IsUnsignedText};
/// ghost use Rattle.std.specs.Prelude.{decimal};
///
/// use bimap::NoMemory;
/// use bimap::value::{JsonKey, ReadFault};
///
/// #[derive(Clone, Copy, Debug, Eq, PartialEq)]
/// pub struct Seat {
///     pub number: u8,
/// }
///
/// impl JsonKey for Seat {
///     ghost writes_key = { λ seat. decimal seat.number };
///
///     ghost reads_key = { λ text seat. IsUnsignedText 8 text seat.number };
///
///     fn to_key(&self, alloc: Global) -> Result<String, NoMemory> {
///         Ok(self.number.to_key(alloc)?)
///     }
///
///     fn from_key(alloc: Global, text: &str) -> Result<Seat, ReadFault> {
///         let number = u8::from_key(alloc, text)?;
///         Ok(Seat { number })
///     }
/// }
/// ```
pub trait JsonKey: Eq + Sized {
    /// What a value is written as.
    ghost writes_key: { Self → List ℕ };

    /// The text reads as the value.
    ghost reads_key: { List ℕ → Self → Type 0 };

    /// Returns the key of a value, as a text.
    ///
    /// Time: O(length of the text).
    ///
    /// Memory: It allocates the text.
    ///
    /// `Err`: Out of memory. There is no text.
    fn to_key(&self, alloc: Global) -> Result<String, NoMemory>
        ensures text { IfOk result (λ s. string_bytes s ≡ writes_key self.now) }
        ensures reads_back { OnOk result (ReadsBack Self.eq
            (reads_key (writes_key self.now)) self.now) };

    /// Returns the value that a key reads as.
    ///
    /// It runs out of memory only for a text that reads as some value.
    ///
    /// Time: O(length of the text).
    ///
    /// Memory: Of the types here, only `String` allocates.
    ///
    /// `Err`: The text reads as no value (`Bad`), or out of memory (`Memory`).
    fn from_key(alloc: Global, text: &str) -> Result<Self, ReadFault>
        ensures { Reads (reads_key text.now) result };
}

/// A right in JSON: the value of an entry.
///
/// As for a [`JsonKey`], what a value is written as reads as an equal value, and as no other.
pub trait JsonValue: Eq + Sized {
    /// What a value is written as.
    ghost writes: { Self → Data };

    /// The JSON value reads as the value.
    ghost reads: { Data → Self → Type 0 };

    /// Returns the JSON value of a value.
    ///
    /// Time: O(length of the text) for a `String`, and O(1) for the other types here.
    ///
    /// Memory: Of the types here, only `String` and `char` allocate.
    ///
    /// `Err`: Out of memory. There is no JSON value.
    fn to_json(&self, alloc: Global) -> Result<Value, NoMemory>
        ensures json { IfOk result (λ v. view v ≡ writes self.now) }
        ensures reads_back { OnOk result (ReadsBack Self.eq (reads (writes self.now)) self.now) };

    /// Returns the value that a JSON value reads as.
    ///
    /// It runs out of memory only for a JSON value that reads as some value.
    ///
    /// Time: O(length of the text) for a `String`, and O(1) for the other types here.
    ///
    /// Memory: Of the types here, only `String` allocates.
    ///
    /// `Err`: The JSON value reads as no value (`Bad`), or out of memory (`Memory`).
    fn from_json(alloc: Global, value: &Value) -> Result<Self, ReadFault>
        ensures { Reads (reads (view value.now)) result };
}
