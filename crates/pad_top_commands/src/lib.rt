//! Tests of `run`: which words are a command, each status, and the commands `log` and `generate`.
#![tactic(auto)]

#[cfg(test)]
mod tests;
