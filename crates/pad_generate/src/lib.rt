//! What the command `generate` does: it generates messages, receives them, and writes a summary of them.
//!
//! ```text
//! generate(alloc, 7, 1000, &mut output)?; // writes `generated 1000`, and the report without the text
//! ```
#![tactic(auto)]

mod generating;
mod refused;

pub use generating::generate;
pub use refused::GenerateRefused;

#[cfg(test)]
mod tests;
