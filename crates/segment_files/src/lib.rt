//! The files of a segmented log: their names, and what they open as together.
//!
//! A log of payloads may stand in several files, its segments, each a log file of one form. Segment 0 has the name of the
//! log, and segment `k` that name, a dot and `k`. Together they open as their lists one after the other, up to the first
//! segment that opens as empty (`opens_joined` in `specs/Joined.antt`): what stands behind that one is not read. So a
//! folder with one file for each log is one of segmented logs as it stands. This crate makes no call of a volume: it has
//! definitions, their laws, and the names.
//!
//! ```text
//! let file = segment_file(alloc, "c.padlog2", 3)?; // c.padlog2.3
//! ```
#![tactic(auto)]

mod laws;
mod names;

pub use laws::{
    a_cut_segment_leaves_payloads_out, a_load_reads_files_at_rest,
    a_single_file_is_a_segmented_log, damage_follows_from_the_segments, files_open_as_one_list,
    segments_have_their_own_files, the_last_segment_decides, undamaged_segments_open,
};
pub use names::segment_file;

#[cfg(test)]
mod tests;
