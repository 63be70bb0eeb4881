//! The map of two hashed sides, and what belongs to it.
pub use bimap_kinds::BiHashMap;
pub use bimap_walk::by_place::{IntoIter, Iter, LeftValues, RightValues};
