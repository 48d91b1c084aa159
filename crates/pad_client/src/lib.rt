//! A client of a pad: one channel, a working copy of its text, and what was requested of the server.
//!
//! A client is a machine: it takes the texts that it hears and its user's calls, and gives the texts that it sends. Who owns it
//! moves them.
//!
//! ```text
//! let mut client = Client::<Rope>::new(alloc)?;
//! let text = client.join(alloc, channel)?;            // to be sent
//! let heard = client.hear(alloc, text, &mut steps)?;  // what the server said
//! let texts = client.sync(alloc, &mut steps)?; // own messages, to be sent
//! client.edit(alloc, op)?;                            // of the shown text
//! ```
#![tactic(auto)]

mod client;
mod edit_refused;
mod hear_refused;
mod heard;
mod repair;
mod sync_refused;

pub use client::Client;
pub use edit_refused::EditRefused;
pub use hear_refused::HearRefused;
pub use heard::Heard;
pub use sync_refused::SyncRefused;

#[cfg(test)]
mod tests;
