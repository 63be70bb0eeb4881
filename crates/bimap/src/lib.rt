//! The facade: the maps with their interface and plain types, lists of calls on any map, and insertions undone.
#![tactic(auto)]

pub mod btree;
mod call;
pub mod hash;
pub mod insertion_order;
mod runs;
mod undone;
pub mod value;

pub use bimap_any::{
    Bijection, Interning, Inverse, contains_pair, extend_with, from_iter_with,
    get_by_left_or_insert_with, get_by_right_or_insert, put, replace_left, replace_right,
    swap_partners,
};
pub use bimap_base::{
    ExtendStopped, HashQuery, ItemRefused, NoMemory, NoRoom, NotInserted, NotInsertedWith,
    NotInverted, NotReplaced, NotSwapped, OnHeld, OrderQuery, Overwritten, Policy, Query,
    UndoStopped,
};
pub use bimap_index::{By, Index, Lookup};
pub use bimap_kinds::{
    BiBTreeHashMap, BiBTreeMap, BiHashBTreeMap, BiHashMap, BiInsertionOrderMap, BijectiveMap,
    Seeded, WalkedIndex,
};
pub use bimap_tree::Ordered;
pub use call::{Call, Reply, RunRefused};
pub use runs::{perform, run};
pub use undone::{UndoRunStopped, undo_run};

/// A map for use without an order.
pub type BiMap<L, R> = BiHashMap<L, R>;
