//! What a client has requested of the server, and what of it awaits an answer.
//!
//! ```text
//! let mut requests = Requests::new(alloc);
//! let text = requests.join(alloc, channel)?;      // to be sent
//! requests.hear_id(id);                           // the replies, as they are heard
//! let joined = requests.hear_member(&id, channel);
//! ```
#![tactic(auto)]

mod asked;
mod client_refused;
mod hearing;
mod joining;
mod requests;

pub use asked::Asked;
pub use client_refused::ClientRefused;
pub use joining::Joining;
pub use requests::Requests;

#[cfg(test)]
mod tests;
