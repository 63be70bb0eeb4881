//! The map that iterates in insertion order, and what belongs to it.
pub use bimap_kinds::BiInsertionOrderMap;
pub use bimap_walk::by_insertion::{IntoIter, Iter};
