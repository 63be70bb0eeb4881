//! What the crates of tests share: keys that count, kinds of map, a map that looks through its pairs, and a limit on memory.
#![tactic(auto)]

mod counted;
mod kind;
mod memory_limit;
mod meter;
mod plain;
mod policies;
mod shown;
mod trails;
mod zero;

pub use counted::{Counted, counted_at};
pub use kind::{CopyKind, Kind};
pub use memory_limit::MemoryLimit;
pub use meter::{Counter, at_zero};
pub use plain::Plain;
pub use policies::{KEEP_LEFT, KEEP_RIGHT, ONCE, OVERWRITE};
pub use shown::shows;
pub use trails::insert_all;
pub use zero::{Crowded, Zero, crowded};
