//! What a map requires of an index of one side, and the three indexes: by order, by hash and by insertion order.
//!
//! An index lists places of a store by their keys. Each call that needs a key is passed the side. The index compares or
//! hashes the keys through the side, and keeps no key itself.
#![tactic(auto)]

mod borrowed;
mod by;
mod constructors;
mod hash_index;
mod index;
mod insertion_order;
mod lookup;
mod ordered;

pub use by::By;
pub use constructors::{CompactedIndex, CopiedIndex, DefaultIndex, EmptyIndex};
pub use hash_index::HashIndex;
pub use index::Index;
pub use insertion_order::InsertionOrder;
pub use lookup::Lookup;
