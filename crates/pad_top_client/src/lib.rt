//! Tests of the command `client` of `pad_top`, over links in memory. They are a crate of their own, so that `pad_top` is proved without them.
#![tactic(auto)]

#[cfg(test)]
mod tests;
