//! Maps over any two kinds of index. A left is ordered, hashed, or hashed in insertion order. A right is ordered or
//! hashed.
//!
//! The examples of calls begin with a map `seats`, into which 'a' with 3, 'b' with 1 and 'c' with 2 were inserted in
//! this order. A comment behind a line shows what the line returns.
#![tactic(auto)]

mod bijection;
mod build;
mod compare_hashed;
mod compare_ordered;
mod copy;
mod debug;
mod ends;
mod hashers;
mod insert;
mod insertion_order;
mod inverse;
mod look_up;
mod loops;
mod make;
mod map;
mod remove;
mod retain;
mod room;
mod seeded;
mod subset;
mod undo;
mod walked_index;
mod walks;

pub use map::{
    BiBTreeHashMap, BiBTreeMap, BiHashBTreeMap, BiHashMap, BiInsertionOrderMap, BijectiveMap,
};
pub use seeded::Seeded;
pub use walked_index::WalkedIndex;
