//! A map whose kind is chosen when it is made.
#![tactic(auto)]

mod any_of;

pub use any_of::{AnyMap, AnyOf};
