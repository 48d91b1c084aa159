//! What a client has heard and made over a whole run, and that clients which are caught up with a channel agree.
//!
//! Laws alone, over the machine's states of a client. Each is the contract of a function that only calls the laws on which it stands.
#![tactic(auto)]

pub mod laws;
