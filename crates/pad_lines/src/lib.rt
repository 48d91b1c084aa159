//! The lines of a text in bytes, one after another.
//!
//! A newline ends a line, and a last line without one counts if it is not empty; a carriage return is part of its line.
//! [`split_line`] takes the first line off, and its contract tells it by the list of all lines, so a caller that takes one
//! line after another can say what it has done by the lines that are left:
//!
//! ```text
//! let mut rest = bytes;
//! while let Some((line, after)) = split_line(rest) {
//!     use_line(line);
//!     rest = after;
//! }
//! ```
#![tactic(auto)]

mod line;

pub use line::split_line;

#[cfg(test)]
mod tests;
