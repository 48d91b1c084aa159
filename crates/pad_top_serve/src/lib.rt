//! Tests of the command `serve`: failing calls of the port and of the volume, and crashes.
#![tactic(auto)]

#[cfg(test)]
mod tests;
