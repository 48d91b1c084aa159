//! Messages: a patch or a checkpoint on a parent, read from a content and written as its compact text.
#![tactic(auto)]

mod content;
mod kind;
mod laws;
mod message;
mod read_refused;
mod reading;
#[cfg(test)]
mod tests;
mod writing;

pub use content::{LONGEST_CONTENT, MOST_OPERATIONS};
pub use kind::{Kind, LONGEST_INTERVAL, SHORTEST_INTERVAL, USUAL_INTERVAL, is_interval};
pub use laws::{compact_texts_read_back, contents_spell_one_message, marked_texts_read_back};
pub use message::Message;
pub use read_refused::ReadRefused;
