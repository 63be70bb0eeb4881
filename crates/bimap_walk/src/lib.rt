//! Iterators over the pairs of a store. `by_rank` iterates in the order of an ordered index. `by_place` iterates in the
//! order of the places. `by_insertion` iterates in the order of a linked list, which is the insertion order.
//!
//! A `Course` leads from place to place. `Iter`, `Values` and `IntoIter` follow any course, and the three modules name
//! them for their own course. Only `by_rank` also iterates from the end. Each iterator has an exact `len`. None
//! allocates. This crate does not know the maps.
#![tactic(auto)]

pub mod by_insertion;
pub mod by_place;
pub mod by_rank;
mod course;
mod into_iter;
mod iter;
mod places;
mod projection;
mod ranks;
mod values;
mod window;

pub use course::{Course, CourseBack};
pub use into_iter::IntoIter;
pub use iter::Iter;
pub use places::{ByPlace, PlacesLeft};
pub use projection::{LeftProjection, Projection, RightProjection};
pub use values::{LeftValues, RightValues, Values};
pub use window::Window;
