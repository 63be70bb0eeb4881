//! Whole numbers as sides: in plain decimal as a key, as a whole JSON number as a value.
#![tactic(auto, using(crate::proofs::JsonNumbers::number_laws))]

ghost use Rattle.std.specs.Prelude.{◌≡◌, ◌↔◌, IsTrue, IfOk, OnOk, IfErr, IsOk, string_bytes};
ghost use Rattle.serde_json.specs.View.{view};
ghost use Rattle.bimap.specs.JsonReading.{Reads, ReadsBack, ReadsSome};
ghost use Rattle.bimap.specs.JsonNumbers.{IsPlain, ParsesPlain, NumberForm, unsigned_form, signed_form};
ghost use Rattle.bimap.specs.declared.value.sides.ReadFault.TheVariants.{Bad};

use crate::value::sides::{self, ReadFault};
use bimap_base::NoMemory;
use serde_json::Value;
use std::alloc::Global;
use std::num::ParseIntError;
use std::str::FromStr;

/// A whole number as a key: what differs from one type to the other. It has the name of the public trait, so that a
/// compiler's message about a missing bound names that trait.
pub trait JsonKey: Copy + Eq {
    /// What a number is written as, and what reads as it.
    ghost form: { NumberForm Self };

    /// Returns the key of a number, as a text.
    fn to_text(self, alloc: Global) -> Result<String, NoMemory>
        ensures text { IfOk result (λ s. string_bytes s ≡ form.writes_key self) }
        ensures reads_back { OnOk result (ReadsBack Self.eq
            (form.reads_key (form.writes_key self)) self) };

    /// Returns the number that a key reads as.
    fn of_text(text: &str) -> Option<Self>
        ensures { ReadsSome (form.reads_key text.now) result };
}

/// A whole number as a value: what differs from one type to the other.
pub trait JsonValue: JsonKey {
    /// Returns the JSON value of a number.
    fn to_value(self) -> Value
        ensures json { view result ≡ Self.form.writes self }
        ensures reads_back { ReadsBack Self.eq (Self.form.reads (Self.form.writes self)) self };

    /// Returns the number that a JSON value reads as.
    fn of_value(value: &Value) -> Option<Self>
        ensures { ReadsSome (Self.form.reads (view value.now)) result };
}

impl<N: JsonKey> sides::JsonKey for N {
    ghost writes_key = { N.form.writes_key };

    ghost reads_key = { N.form.reads_key };

    fn to_key(&self, alloc: Global) -> Result<String, NoMemory> {
        self.to_text(alloc)
    }

    fn from_key(_alloc: Global, text: &str) -> Result<N, ReadFault>
        ensures reads { Reads (N.form.reads_key text.now) result }
        ensures takes_no_memory { IfErr result (λ fault. fault ≡ Bad) }
    {
        N::of_text(text).ok_or(ReadFault::Bad)
    }
}

impl<N: JsonValue> sides::JsonValue for N {
    ghost writes = { N.form.writes };

    ghost reads = { N.form.reads };

    fn to_json(&self, _alloc: Global) -> Result<Value, NoMemory>
        ensures json { IfOk result (λ v. view v ≡ N.form.writes self.now) }
        ensures reads_back { ReadsBack N.eq (N.form.reads (N.form.writes self.now)) self.now }
        ensures takes_no_memory { IsOk result }
    {
        Ok(self.to_value())
    }

    fn from_json(_alloc: Global, value: &Value) -> Result<N, ReadFault>
        ensures reads { Reads (N.form.reads (view value.now)) result }
        ensures takes_no_memory { IfErr result (λ fault. fault ≡ Bad) }
    {
        N::of_value(value).ok_or(ReadFault::Bad)
    }
}

// Returns whether a text is a number's one spelling: no plus, no needless zero, and no zero after a minus.
fn is_plain(text: &[u8]) -> bool
    ensures { IsTrue result ↔ IsPlain text.now }
{
    !matches!(text, [b'+', ..] | [b'0', _, ..] | [b'-', b'0', ..])
}

// What `parse` returns for a text that is plain.
fn parse_plain<N: FromStr<Err = ParseIntError>>(text: &str) -> Option<N>
    ensures { ParsesPlain N.from_str_gives text.now result }
{
    if is_plain(text.as_bytes()) {
        text.parse::<N>().ok()
    } else {
        None
    }
}

impl JsonKey for u8 {
    ghost form = { unsigned_form 8 };

    fn to_text(self, alloc: Global) -> Result<String, NoMemory> {
        Ok(self.to_string(alloc)?)
    }

    fn of_text(text: &str) -> Option<u8> {
        parse_plain(text)
    }
}

impl JsonValue for u8 {
    fn to_value(self) -> Value {
        Value::from(self)
    }

    fn of_value(value: &Value) -> Option<u8> {
        u8::try_from(value.as_u64()?).ok()
    }
}

impl JsonKey for u16 {
    ghost form = { unsigned_form 16 };

    fn to_text(self, alloc: Global) -> Result<String, NoMemory> {
        Ok(self.to_string(alloc)?)
    }

    fn of_text(text: &str) -> Option<u16> {
        parse_plain(text)
    }
}

impl JsonValue for u16 {
    fn to_value(self) -> Value {
        Value::from(self)
    }

    fn of_value(value: &Value) -> Option<u16> {
        u16::try_from(value.as_u64()?).ok()
    }
}

impl JsonKey for u32 {
    ghost form = { unsigned_form 32 };

    fn to_text(self, alloc: Global) -> Result<String, NoMemory> {
        Ok(self.to_string(alloc)?)
    }

    fn of_text(text: &str) -> Option<u32> {
        parse_plain(text)
    }
}

impl JsonValue for u32 {
    fn to_value(self) -> Value {
        Value::from(self)
    }

    fn of_value(value: &Value) -> Option<u32> {
        u32::try_from(value.as_u64()?).ok()
    }
}

impl JsonKey for u64 {
    ghost form = { unsigned_form 64 };

    fn to_text(self, alloc: Global) -> Result<String, NoMemory> {
        Ok(self.to_string(alloc)?)
    }

    fn of_text(text: &str) -> Option<u64> {
        parse_plain(text)
    }
}

impl JsonValue for u64 {
    fn to_value(self) -> Value {
        Value::from(self)
    }

    fn of_value(value: &Value) -> Option<u64> {
        value.as_u64()
    }
}

impl JsonKey for usize {
    ghost form = { unsigned_form 64 };

    fn to_text(self, alloc: Global) -> Result<String, NoMemory> {
        Ok(self.to_string(alloc)?)
    }

    fn of_text(text: &str) -> Option<usize> {
        parse_plain(text)
    }
}

impl JsonValue for usize {
    fn to_value(self) -> Value {
        Value::from(self)
    }

    fn of_value(value: &Value) -> Option<usize> {
        usize::try_from(value.as_u64()?).ok()
    }
}

impl JsonKey for i8 {
    ghost form = { signed_form 7 };

    fn to_text(self, alloc: Global) -> Result<String, NoMemory> {
        Ok(self.to_string(alloc)?)
    }

    fn of_text(text: &str) -> Option<i8> {
        parse_plain(text)
    }
}

impl JsonValue for i8 {
    fn to_value(self) -> Value {
        Value::from(self)
    }

    fn of_value(value: &Value) -> Option<i8> {
        i8::try_from(value.as_i64()?).ok()
    }
}

impl JsonKey for i16 {
    ghost form = { signed_form 15 };

    fn to_text(self, alloc: Global) -> Result<String, NoMemory> {
        Ok(self.to_string(alloc)?)
    }

    fn of_text(text: &str) -> Option<i16> {
        parse_plain(text)
    }
}

impl JsonValue for i16 {
    fn to_value(self) -> Value {
        Value::from(self)
    }

    fn of_value(value: &Value) -> Option<i16> {
        i16::try_from(value.as_i64()?).ok()
    }
}

impl JsonKey for i32 {
    ghost form = { signed_form 31 };

    fn to_text(self, alloc: Global) -> Result<String, NoMemory> {
        Ok(self.to_string(alloc)?)
    }

    fn of_text(text: &str) -> Option<i32> {
        parse_plain(text)
    }
}

impl JsonValue for i32 {
    fn to_value(self) -> Value {
        Value::from(self)
    }

    fn of_value(value: &Value) -> Option<i32> {
        i32::try_from(value.as_i64()?).ok()
    }
}

impl JsonKey for i64 {
    ghost form = { signed_form 63 };

    fn to_text(self, alloc: Global) -> Result<String, NoMemory> {
        Ok(self.to_string(alloc)?)
    }

    fn of_text(text: &str) -> Option<i64> {
        parse_plain(text)
    }
}

impl JsonValue for i64 {
    fn to_value(self) -> Value {
        Value::from(self)
    }

    fn of_value(value: &Value) -> Option<i64> {
        value.as_i64()
    }
}
