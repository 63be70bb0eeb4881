//! A hashed index of places, which lists each place under the hash number of its key. It knows no values. It compares and
//! hashes keys only through `Spread`.
//!
//! A look-up, an insertion and a removal follow one chain, whose length is not bounded. Only `grow`, `grow_to` and `compacted`
//! allocate.
#![tactic(auto)]

mod cells;
mod chains;
mod hashed;
mod link;
mod threads;

pub use hashed::Hashed;
