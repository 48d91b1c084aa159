//! What a history keeper answers of a channel, and its table of channels.
//!
//! `span_of` and `tail_of` say where a history starts and how many entries there are, by the index of a channel alone.
//! `entry_of` gives the entry that a payload holds. `Table` has the channels that were loaded, of which each is loaded or has
//! to be loaded again.
//!
//! ```text
//! let span = span_of(&index, &Since::Default);
//! let entry = entry_of(alloc, 0, payload.as_slice())?;
//! table.add(&channel)?;
//! ```
#![tactic(auto)]

mod entry;
mod files;
mod laws;
mod span;
mod table;

pub use entry::{Entry, entry_of};
pub use files::{FileNames, file_of, files_of, old_file_of};
pub use laws::{
    channels_share_no_file, default_histories_start_at_the_last_but_one_checkpoint,
    forms_share_no_file, known_histories_start_at_the_first, other_channels_stay,
};
pub use span::{Span, span_of, tail_of};
pub use table::{MOST_CHANNELS, Table};

#[cfg(test)]
mod tests;
