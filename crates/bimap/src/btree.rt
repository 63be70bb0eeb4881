//! The maps with an ordered side, and what belongs to them.
pub use bimap_base::{Count, Meter};
pub use bimap_kinds::{BiBTreeHashMap, BiBTreeMap, BiHashBTreeMap};
pub use bimap_walk::by_rank::{IntoIter, Iter, LeftRange, LeftValues, RightRange, RightValues};
