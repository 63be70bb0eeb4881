//! Maps as JSON objects and back, and pairs as JSON arrays. It uses calls of `Bijection` and iterators alone.
mod document;
mod kinds;
mod numbers;
mod object;
mod pairs;
mod sides;
mod texts;

pub use document::read_text_with;
pub use kinds::{from_value_with_hashers, hash_to_value, reread_with_hashers};
pub use object::{JsonFault, JsonObject, read_into, read_into_with, reread, write_walk};
pub use pairs::{PairsFault, read_pairs, write_pairs};
pub use serde_json::Value;
pub use sides::{JsonKey, JsonValue, ReadFault};
