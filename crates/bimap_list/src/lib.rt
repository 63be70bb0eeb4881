//! A doubly linked list of places, in the order in which they were appended or moved to an end. It knows no values and no
//! keys.
//!
//! Each call takes constant time, except `grow`, `ranks` and `clone`. These three are also the only calls that allocate.
#![tactic(auto)]

mod cell_number;
mod linked_list;
mod ranks;
mod ring;

pub use linked_list::LinkedList;
