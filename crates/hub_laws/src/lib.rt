//! What a hub tells its connections: each content for a channel is an entry of what the channel holds.
//!
//! Laws alone, over the definition of the serve machine.
#![tactic(auto)]

pub mod laws;
