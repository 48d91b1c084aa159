//! Entries of a channel: the payloads that a log keeps of them, their keys, and where a history starts.
//!
//! A payload holds the moment, the sender and the content of an entry. `content_of` lends the content, and nothing exactly
//! if the payload holds no entry; `build_payload` writes the payload of an entry, which holds that entry again. `Index` is
//! what is known of a list of entries without their contents: where each key stands first, and where a default history
//! starts.
//!
//! ```text
//! let payload = build_payload(alloc, moment, sender, content)?;
//! let content = content_of(payload.as_slice());
//! index.add(content)?;
//! ```
#![tactic(auto)]

mod content;
mod index;
mod laws;
mod payload;

pub use content::{is_checkpoint, key_of};
pub use index::Index;
pub use laws::payloads_hold_their_entries;
pub use payload::{
    BEFORE_CONTENT, MOMENT_BYTES, SENDER_DIGITS, build_payload, content_of, moment_of, sender_of,
};

#[cfg(test)]
mod tests;
