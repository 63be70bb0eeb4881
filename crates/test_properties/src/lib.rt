//! Tests of what no clause says and no page of transcripts shows: drops, odd values, hash builders, iteration in loops, refused memory, and JSON of a type of one's own.
#![tactic(auto)]

mod seat;
#[cfg(test)]
mod tests;

pub use seat::Seat;
