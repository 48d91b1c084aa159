//! Contents of generated messages: a large valid input, which a number determines.
//!
//! Each message stands on one of the last three items, so that some parts of the chain are left behind. It inserts a letter or removes
//! a unit, and is a checkpoint where its height is a multiple of 50. The contents are given out in blocks of 16, each in reverse
//! order, so that most messages come before their parents.
//!
//! ```text
//! let contents = generate(alloc, 7, 1000)?;
//! for content in contents.as_slice() {
//!     chain.receive(..)?;
//! }
//! ```
#![tactic(auto)]

mod blocks;
mod drafting;
mod generator;
mod kept_item;
mod laws;
mod recent;
mod words;

pub use generator::{MOST_MESSAGES, generate};
pub use laws::{as_many_as_asked, each_is_read, each_is_sound, only_the_order_changes};

#[cfg(test)]
mod tests;
