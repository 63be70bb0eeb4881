//! The checker proves a test again for each kind of map that it names. So a test names a kind only if it makes a difference.
//! The two mixed kinds have either index on either side.
mod callers;
mod counted;
mod drops;
mod few_tests;
mod hints;
mod index;
mod left_held;
mod marks;
mod meters;
mod no_bytes;
mod places;
mod positions;
mod seats;
mod seeds;
mod texts;
mod undo_runs;
