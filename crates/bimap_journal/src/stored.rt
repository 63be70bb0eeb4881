//! The types of sides that a journal can keep.
ghost use Rattle.std.proofs.Common.{lit≤};
ghost use Rattle.std.specs.Prelude.{IfOk, OnOk, ◌≡◌, string_bytes};
ghost use Rattle.std.specs.Char.{encode_utf8};
ghost use Rattle.serde_json.specs.Data.{Data, boolean, string};
ghost use Rattle.serde_json.specs.View.{view};
ghost use Rattle.bimap.specs.JsonReading.{Reads, ReadsBack};
ghost use Rattle.bimap.specs.JsonNumbers.{unsigned_form, signed_form};
ghost use Rattle.bimap.specs.JsonTexts.{IsCharValue, IsStringValue, IsBoolValue};
ghost use Rattle.bimap_journal.specs.Stored.{IsShallow, ReadsAsOne};
ghost use Rattle.bimap_journal.specs.StoredLaws.{unsigned_one, signed_one, char_one, string_one, bool_one};

use bimap::value::{JsonValue, ReadFault, Value};
use bimap_base::NoMemory;
use std::alloc::Global;

/// A value that a journal can keep: its JSON does not nest too deep, and one JSON value reads as equal values only.
///
/// The types of the standard library that have [`JsonValue`] have this trait too. A type of yours that has `JsonValue`
/// calls it here. The trait does not require `JsonValue`, because the prover must find one impl alone for each type.
pub trait Stored: Eq + Sized {
    /// What a value is written as.
    ghost writes: { Self → Data };

    /// The JSON value reads as the value.
    ghost reads: { Data → Self → Type 0 };

    /// Returns the JSON value of a value, as [`JsonValue::to_json`] does.
    fn to_stored(&self, alloc: Global) -> Result<Value, NoMemory>
        ensures json { IfOk result (λ v. view v ≡ writes self.now) }
        ensures reads_back { OnOk result (ReadsBack Self.eq (reads (writes self.now)) self.now) };

    /// Returns the value that a JSON value reads as, as [`JsonValue::from_json`] does.
    fn from_stored(alloc: Global, value: &Value) -> Result<Self, ReadFault>
        ensures { Reads (reads (view value.now)) result };

    /// The JSON of a value nests at most 126 arrays and objects.
    ghost shallow: { IsShallow writes };

    /// What one JSON value reads as is equal.
    ghost one: { ReadsAsOne reads Self.PartialEq.eq };
}

impl Stored for u8 {
    ghost writes = { (unsigned_form 8).writes };

    ghost reads = { (unsigned_form 8).reads };

    fn to_stored(&self, alloc: Global) -> Result<Value, NoMemory> {
        self.to_json(alloc)
    }

    fn from_stored(alloc: Global, value: &Value) -> Result<u8, ReadFault> {
        u8::from_json(alloc, value)
    }

    ghost shallow = { λ value. lit≤ tt };

    ghost one = { unsigned_one 8 };
}

impl Stored for u16 {
    ghost writes = { (unsigned_form 16).writes };

    ghost reads = { (unsigned_form 16).reads };

    fn to_stored(&self, alloc: Global) -> Result<Value, NoMemory> {
        self.to_json(alloc)
    }

    fn from_stored(alloc: Global, value: &Value) -> Result<u16, ReadFault> {
        u16::from_json(alloc, value)
    }

    ghost shallow = { λ value. lit≤ tt };

    ghost one = { unsigned_one 16 };
}

impl Stored for u32 {
    ghost writes = { (unsigned_form 32).writes };

    ghost reads = { (unsigned_form 32).reads };

    fn to_stored(&self, alloc: Global) -> Result<Value, NoMemory> {
        self.to_json(alloc)
    }

    fn from_stored(alloc: Global, value: &Value) -> Result<u32, ReadFault> {
        u32::from_json(alloc, value)
    }

    ghost shallow = { λ value. lit≤ tt };

    ghost one = { unsigned_one 32 };
}

impl Stored for u64 {
    ghost writes = { (unsigned_form 64).writes };

    ghost reads = { (unsigned_form 64).reads };

    fn to_stored(&self, alloc: Global) -> Result<Value, NoMemory> {
        self.to_json(alloc)
    }

    fn from_stored(alloc: Global, value: &Value) -> Result<u64, ReadFault> {
        u64::from_json(alloc, value)
    }

    ghost shallow = { λ value. lit≤ tt };

    ghost one = { unsigned_one 64 };
}

impl Stored for usize {
    ghost writes = { (unsigned_form 64).writes };

    ghost reads = { (unsigned_form 64).reads };

    fn to_stored(&self, alloc: Global) -> Result<Value, NoMemory> {
        self.to_json(alloc)
    }

    fn from_stored(alloc: Global, value: &Value) -> Result<usize, ReadFault> {
        usize::from_json(alloc, value)
    }

    ghost shallow = { λ value. lit≤ tt };

    ghost one = { unsigned_one 64 };
}

impl Stored for i8 {
    ghost writes = { (signed_form 7).writes };

    ghost reads = { (signed_form 7).reads };

    fn to_stored(&self, alloc: Global) -> Result<Value, NoMemory> {
        self.to_json(alloc)
    }

    fn from_stored(alloc: Global, value: &Value) -> Result<i8, ReadFault> {
        i8::from_json(alloc, value)
    }

    ghost shallow = { λ value. lit≤ tt };

    ghost one = { signed_one 7 };
}

impl Stored for i16 {
    ghost writes = { (signed_form 15).writes };

    ghost reads = { (signed_form 15).reads };

    fn to_stored(&self, alloc: Global) -> Result<Value, NoMemory> {
        self.to_json(alloc)
    }

    fn from_stored(alloc: Global, value: &Value) -> Result<i16, ReadFault> {
        i16::from_json(alloc, value)
    }

    ghost shallow = { λ value. lit≤ tt };

    ghost one = { signed_one 15 };
}

impl Stored for i32 {
    ghost writes = { (signed_form 31).writes };

    ghost reads = { (signed_form 31).reads };

    fn to_stored(&self, alloc: Global) -> Result<Value, NoMemory> {
        self.to_json(alloc)
    }

    fn from_stored(alloc: Global, value: &Value) -> Result<i32, ReadFault> {
        i32::from_json(alloc, value)
    }

    ghost shallow = { λ value. lit≤ tt };

    ghost one = { signed_one 31 };
}

impl Stored for i64 {
    ghost writes = { (signed_form 63).writes };

    ghost reads = { (signed_form 63).reads };

    fn to_stored(&self, alloc: Global) -> Result<Value, NoMemory> {
        self.to_json(alloc)
    }

    fn from_stored(alloc: Global, value: &Value) -> Result<i64, ReadFault> {
        i64::from_json(alloc, value)
    }

    ghost shallow = { λ value. lit≤ tt };

    ghost one = { signed_one 63 };
}

impl Stored for char {
    ghost writes = { λ c. string (encode_utf8 c) };

    ghost reads = { IsCharValue };

    fn to_stored(&self, alloc: Global) -> Result<Value, NoMemory> {
        self.to_json(alloc)
    }

    fn from_stored(alloc: Global, value: &Value) -> Result<char, ReadFault> {
        char::from_json(alloc, value)
    }

    ghost shallow = { λ value. lit≤ tt };

    ghost one = { char_one };
}

impl Stored for String {
    ghost writes = { λ s. string (string_bytes s) };

    ghost reads = { IsStringValue };

    fn to_stored(&self, alloc: Global) -> Result<Value, NoMemory> {
        self.to_json(alloc)
    }

    fn from_stored(alloc: Global, value: &Value) -> Result<String, ReadFault> {
        String::from_json(alloc, value)
    }

    ghost shallow = { λ value. lit≤ tt };

    ghost one = { string_one };
}

impl Stored for bool {
    ghost writes = { boolean };

    ghost reads = { IsBoolValue };

    fn to_stored(&self, alloc: Global) -> Result<Value, NoMemory> {
        self.to_json(alloc)
    }

    fn from_stored(alloc: Global, value: &Value) -> Result<bool, ReadFault> {
        bool::from_json(alloc, value)
    }

    ghost shallow = { λ value. lit≤ tt };

    ghost one = { bool_one };
}
