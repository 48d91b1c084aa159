//! What clients of a hub have of its channels: nothing is invented on the way.
//!
//! Laws alone, over the states of clients with their connections. Each is the contract of a function that only calls the laws on which it
//! stands.
#![tactic(auto)]

pub mod laws;
