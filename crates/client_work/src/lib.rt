//! How work that was not sent is carried along as the best chain changes.
//!
//! ```text
//! let moved = chain.receive(alloc, message, &mut steps)?;
//! carry(alloc, &mut work, &sent, &moved, size, &chain.hash())?; // `size` is the length of the text before
//! ```
#![tactic(auto)]

mod carrying;
mod stepping;

pub use carrying::carry;

#[cfg(test)]
mod tests;
