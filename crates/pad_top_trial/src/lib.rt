//! Runs over sources, sinks and volumes in memory, for the crates of tests of `pad_top`.
#![tactic(auto)]

mod trial;

pub use trial::{run_alone, spaces, words_of};
