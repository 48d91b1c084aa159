//! The bytes that wait to go out over a connection, and over all of them together, with what bounds them. It does no input and no
//! output.
//!
//! ```text
//! let mut outbox = Outbox::new(alloc);
//! outbox.push(frame)?; // behind what waits
//! let count = stream.write(outbox.piece())?; // what goes out next
//! outbox.sent(count); // the system took so many of them
//! ```
#![tactic(auto)]

mod all_unsent;
mod frame;
mod limits;
mod outbox;

pub use all_unsent::AllUnsent;
pub use limits::{ALL_UNSENT_BYTES, UNSENT_BYTES};
pub use outbox::Outbox;

#[cfg(test)]
mod tests;
