//! Characters, texts and truth values as sides.
ghost use Rattle.std.specs.Prelude.{◌≡◌, string_bytes, IfOk, IfErr, IsOk};
ghost use Rattle.std.specs.Bool.{beq};
ghost use Rattle.std.specs.Char.{encode_utf8};
ghost use Rattle.serde_json.specs.Data.{boolean, string};
ghost use Rattle.serde_json.specs.View.{view};
ghost use Rattle.bimap.specs.JsonReading.{Reads, ReadsBack};
ghost use Rattle.bimap.specs.JsonTexts.{IsCharText, IsCharValue, IsStringText, IsStringValue, bool_text, IsBoolText, IsBoolValue};
ghost use Rattle.bimap.specs.declared.value.sides.ReadFault.TheVariants.{Bad, Memory};

use crate::value::sides::{JsonKey, JsonValue, ReadFault};
use bimap_base::NoMemory;
use serde_json::Value;
use std::alloc::Global;

impl JsonKey for char {
    ghost writes_key = { encode_utf8 };

    ghost reads_key = { IsCharText };

    #[tactic(auto, using(crate::proofs::JsonTexts::back_char))]
    fn to_key(&self, alloc: Global) -> Result<String, NoMemory> {
        let key = *self;
        Ok(key.to_string(alloc)?)
    }

    fn from_key(_alloc: Global, text: &str) -> Result<char, ReadFault>
        ensures reads { Reads (IsCharText text.now) result }
        ensures takes_no_memory { IfErr result (λ fault. fault ≡ Bad) }
    {
        text.parse::<char>().or(Err(ReadFault::Bad))
    }
}

impl JsonValue for char {
    ghost writes = { λ c. string (encode_utf8 c) };

    ghost reads = { IsCharValue };

    #[tactic(auto, using(crate::proofs::JsonTexts::back_char_json))]
    fn to_json(&self, alloc: Global) -> Result<Value, NoMemory> {
        Ok(Value::String(self.to_key(alloc)?))
    }

    fn from_json(alloc: Global, value: &Value) -> Result<char, ReadFault>
        ensures reads { Reads (IsCharValue (view value.now)) result }
        ensures takes_no_memory { IfErr result (λ fault. fault ≡ Bad) }
    {
        char::from_key(alloc, value.as_str().ok_or(ReadFault::Bad)?)
    }
}

impl JsonKey for String {
    ghost writes_key = { string_bytes };

    ghost reads_key = { IsStringText };

    #[tactic(auto, using(crate::proofs::JsonTexts::back_string))]
    fn to_key(&self, alloc: Global) -> Result<String, NoMemory> {
        Ok(String::from_str(alloc, self.as_str())?)
    }

    fn from_key(alloc: Global, text: &str) -> Result<String, ReadFault>
        ensures reads { Reads (IsStringText text.now) result }
        ensures never_bad { IfErr result (λ fault. fault ≡ Memory) }
    {
        String::from_str(alloc, text).or(Err(ReadFault::Memory))
    }
}

impl JsonValue for String {
    ghost writes = { λ s. string (string_bytes s) };

    ghost reads = { IsStringValue };

    #[tactic(auto, using(crate::proofs::JsonTexts::back_string_json))]
    fn to_json(&self, alloc: Global) -> Result<Value, NoMemory> {
        Ok(Value::String(self.to_key(alloc)?))
    }

    fn from_json(alloc: Global, value: &Value) -> Result<String, ReadFault> {
        String::from_key(alloc, value.as_str().ok_or(ReadFault::Bad)?)
    }
}

impl JsonKey for bool {
    ghost writes_key = { bool_text };

    ghost reads_key = { IsBoolText };

    #[tactic(auto, using(crate::proofs::JsonTexts::back_bool))]
    fn to_key(&self, alloc: Global) -> Result<String, NoMemory> {
        let truth = *self;
        Ok(truth.to_string(alloc)?)
    }

    fn from_key(_alloc: Global, text: &str) -> Result<bool, ReadFault>
        ensures reads { Reads (IsBoolText text.now) result }
        ensures takes_no_memory { IfErr result (λ fault. fault ≡ Bad) }
    {
        text.parse::<bool>().or(Err(ReadFault::Bad))
    }
}

impl JsonValue for bool {
    ghost writes = { boolean };

    ghost reads = { IsBoolValue };

    #[tactic(auto, using(crate::proofs::JsonTexts::back_bool_json))]
    fn to_json(&self, _alloc: Global) -> Result<Value, NoMemory>
        ensures json { IfOk result (λ v. view v ≡ boolean self.now) }
        ensures reads_back { ReadsBack beq (IsBoolValue (boolean self.now)) self.now }
        ensures takes_no_memory { IsOk result }
    {
        Ok(Value::from(*self))
    }

    fn from_json(_alloc: Global, value: &Value) -> Result<bool, ReadFault>
        ensures reads { Reads (IsBoolValue (view value.now)) result }
        ensures takes_no_memory { IfErr result (λ fault. fault ≡ Bad) }
    {
        value.as_bool().ok_or(ReadFault::Bad)
    }
}
