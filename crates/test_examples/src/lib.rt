//! The examples in the docs of the maps' calls, as tests. `tools/examples` checks that each example is here.
#![tactic(auto)]

#[cfg(test)]
mod tests;
