//! What a client sends: its requests, and own messages that are kept until they are acknowledged.
//!
//! ```text
//! let mut outbox = Outbox::new(alloc);
//! let text = message_text(alloc, 2, &channel, &message)?;   // to be sent
//! outbox.add(name, message, 2)?;                            // it awaits its answer under 2
//! outbox.let_go_under(2);                                   // `[2,"ACK"]` was heard
//! ```
#![tactic(auto)]

mod outbox;
mod own;
mod texts;

pub use outbox::{MOST_UNACKNOWLEDGED, Outbox};
pub use own::Own;
pub use texts::{history_text, join_text, leave_text, message_text};

#[cfg(test)]
mod tests;
