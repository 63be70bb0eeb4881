//! An index of places in the order of their keys. It is a balanced tree over cells, and compares keys only through `Keys`.
#![tactic(auto)]

mod ahead;
mod batch;
mod by_width;
mod descent;
mod end_changes;
mod ends;
mod levels;
mod link;
mod notes;
mod ordered;
mod remove;
mod rise;
mod route;
mod search;
mod search_key;
mod span;
mod upper;
mod walk;

pub use batch::Batch;
pub use descent::Descent;
pub use ordered::Ordered;
pub use route::Route;
pub use span::Span;
