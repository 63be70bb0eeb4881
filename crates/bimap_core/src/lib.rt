//! A bijective map over any two indexes: the store of pairs, one index for each side, and the calls that keep them in
//! step.
#![tactic(auto)]

mod compact;
mod copy;
mod for_each;
mod insert;
mod insertion_order;
mod intern;
mod inverse;
mod outlet;
mod partition;
mod partition_ordered;
mod ranks;
mod remove;
mod room;
mod slot_update;
mod table;
mod undo;
mod write;

pub use outlet::{Dropped, Outlet};
pub use partition_ordered::PartedIndex;
pub use ranks::pair_at_rank;
pub use table::Table;
