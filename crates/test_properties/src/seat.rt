//! A type of one's own as a side in JSON.
ghost use Rattle.std.specs.Prelude.{decimal};
ghost use Rattle.bimap.specs.Data.{number, unsigned};
ghost use Rattle.bimap.specs.JsonTexts.{IsUnsignedText, IsUnsignedValue};

use bimap::NoMemory;
use bimap::value::{JsonKey, JsonValue, ReadFault, Value};
use std::alloc::Global;

/// A seat. JSON shows it as its number.
#[derive(Clone, Copy, Debug, Drop, Eq, Hash, Ord, PartialEq, PartialOrd)]
pub struct Seat {
    pub number: u8,
}

impl JsonKey for Seat {
    ghost writes_key = { λ seat. decimal seat.number };

    ghost reads_key = { λ text seat. IsUnsignedText 8 text seat.number };

    fn to_key(&self, alloc: Global) -> Result<String, NoMemory> {
        Ok(self.number.to_key(alloc)?)
    }

    fn from_key(alloc: Global, text: &str) -> Result<Seat, ReadFault> {
        let number = u8::from_key(alloc, text)?;
        Ok(Seat { number })
    }
}

impl JsonValue for Seat {
    ghost writes = { λ seat. number (unsigned seat.number) };

    ghost reads = { λ value seat. IsUnsignedValue 8 value seat.number };

    fn to_json(&self, alloc: Global) -> Result<Value, NoMemory> {
        Ok(self.number.to_json(alloc)?)
    }

    fn from_json(alloc: Global, value: &Value) -> Result<Seat, ReadFault> {
        let number = u8::from_json(alloc, value)?;
        Ok(Seat { number })
    }
}
