//! What the command `log` writes: the entries of a channel, one a line.
//!
//! A line has the index of an entry, its moment in seconds since 1970, its sender, and its content as a JSON string. The last
//! line tells how many entries there are.
//!
//! ```text
//! let line = entry_line(alloc, 0, payload.as_slice())?; // none if the payload holds no entry
//! let last = count_line(alloc, 1)?;
//! write_channel::<Log, Log, _, _>(alloc, volume, &channel, output)?;
//! ```
#![tactic(auto)]

mod lines;
mod refused;
mod writing;

pub use lines::{count_line, entry_line};
pub use refused::LogRefused;
pub use writing::{write_channel, write_log};

#[cfg(test)]
mod tests;
