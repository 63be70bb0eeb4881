//! What every map has, whatever its kind: the interface `Bijection`, functions over any map, and a map seen with its sides
//! exchanged.
#![tactic(auto)]

mod bijection;
mod fill;
mod interning;
mod inverse;
mod putting;
mod replace;
mod swap;

pub use bijection::Bijection;
pub use fill::{extend, extend_with, from_iter, from_iter_with};
pub use interning::{Interning, get_by_left_or_insert_with, get_by_right_or_insert};
pub use inverse::Inverse;
pub use putting::{contains_pair, put};
pub use replace::{replace_left, replace_right};
pub use swap::swap_partners;
