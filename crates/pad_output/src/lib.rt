//! Writing whole texts to a sink.
//!
//! A write of a [`Sink`](pad_edge::Sink) may take a part of what it is given. [`write_all`] goes on until all of a text is written, or a
//! write fails.
//!
//! ```text
//! write_all(output, b"entries 2\n")?;
//! ```
#![tactic(auto)]

mod output;

pub use output::write_all;

#[cfg(test)]
mod tests;
