//! The working copy of a client: a chain, and work on its text that was not sent. It knows no server.
//!
//! ```text
//! let mut copy = WorkingCopy::<Rope>::new(alloc)?;
//! let moved = copy.receive(alloc, name, message, &mut steps)?; // the work follows
//! copy.edit(alloc, op)?;                                       // of the shown text
//! ```
#![tactic(auto)]

mod carrying;
pub mod laws;
mod leading;
mod working_copy;

pub use working_copy::WorkingCopy;

#[cfg(test)]
mod tests;
