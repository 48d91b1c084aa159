//! Whether a message is sound on a text: its patch fits and, if it is a checkpoint, it is due there and replaces the whole
//! text by itself.
//!
//! `IsSound` of `pad_model` is the definition, and the contract of the one call here. Every program that goes forward on a
//! path asks it of each message: the plain one, and the one that rewinds a text.
//!
//! ```text
//! if is_sound(&message, since + 1, interval, &text, &hash) {
//!     text = message.patch.apply(alloc, &text)?; // its condition holds
//! }
//! ```
#![tactic(auto)]

mod sound;

pub use sound::is_sound;
