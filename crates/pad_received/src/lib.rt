//! What was received of contents: the chain of the messages that they spell, how many spelled none, and the report of it.
//!
//! ```text
//! let mut received = Received::new(alloc)?;
//! received.receive_line(alloc, content.as_bytes(), &mut steps)?; // each content in turn
//! let report = received.report(alloc)?;
//! ```
#![tactic(auto)]

mod read_line;
mod received;

pub use received::Received;

#[cfg(test)]
mod tests;
