//! Tests of the command `replay`: the best chain, lines that are no message, faults and limits.
#![tactic(auto)]

#[cfg(test)]
mod tests;
