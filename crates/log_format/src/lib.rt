//!
//! A file is a magic of eight bytes and then entries: a gate, the length of a payload, and the payload. One more gate
//! stands at the end. An entry counts only while its gate is 01, so that one byte decides whether all behind it does.
//! What a file opens as (`opens` in `specs/File.antt`) is a function of its bytes, and `Form` says which magic and which
//! limits count. This crate makes no call of a volume: it has definitions, their laws, and the bytes to be written.
//!
//! ```text
//! let frame = Frame::build(alloc, payload)?;    // length, payload, closed gate
//! let group = Frames::build(alloc, &payloads)?; // 1 to 64 payloads, to be appended under one gate
//! ```
#![tactic(auto)]

mod damage;
mod form;
mod frame;
mod frames;
mod laws;
mod layout;
mod payload;
mod payloads;
mod record;

pub use damage::Damage;
pub use form::{
    Form, MAGIC_ONE, MAGIC_TWO, MOST_BYTES_ONE, MOST_BYTES_TWO, MOST_ENTRIES_ONE, MOST_ENTRIES_TWO,
};
pub use frame::{Frame, LONGEST_PAYLOAD};
pub use frames::{Frames, MOST_FRAMES};
pub use laws::{opens_with_its_doubt, reopens};
pub use layout::{EMPTY_LOG, ENTRY_HEAD, MAGIC_SIZE};
pub use payload::Payload;
pub use payloads::Payloads;
