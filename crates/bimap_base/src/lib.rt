//! The base of all bimaps. It has the plain types, the store of pairs, and the interfaces between store, index and bimap.
#![tactic(auto)]

mod by_hash;
mod by_order;
mod cells;
mod count;
mod keys;
mod meter;
mod numbered;
mod overwritten;
mod pairs;
mod policy;
mod query;
mod refusal;
mod side;
mod spread;

pub use by_hash::ByHash;
pub use by_order::ByOrder;
pub use cells::{Cell, Cells, NarrowCell, Node, Nodes, WideCell};
pub use count::Count;
pub use keys::{Keys, Sought};
pub use meter::Meter;
pub use numbered::hash_number;
pub use overwritten::Overwritten;
pub use pairs::Pairs;
pub use policy::{OnHeld, Policy};
pub use query::{HashQuery, OrderQuery, Query};
pub use refusal::{
    ExtendStopped, ItemRefused, NoMemory, NoRoom, NotInserted, NotInsertedWith, NotInverted,
    NotReplaced, NotSwapped, UndoStopped,
};
pub use side::{LeftSide, RightSide, Side};
pub use spread::Spread;
