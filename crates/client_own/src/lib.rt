//! Own work stands once: what a client typed is on its best chain and in its work once, if no later edit of its own removed it.
//!
//! Laws alone, over the machine's states of a working copy. Each is the contract of a function that only calls the laws on which it stands.
#![tactic(auto)]

pub mod laws;
