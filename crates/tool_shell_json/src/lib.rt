//! Reads and writes JSON for the shell, at each type that a side of a map can have. This is a crate of its own, so that
//! it and the shell are proved at the same time.
#![tactic(auto)]

mod json;
mod pairs;
mod texts;

pub use json::{JsonCall, json_call};
pub use texts::{numbered, repeated};
