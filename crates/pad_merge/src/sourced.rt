use crate::origins::Origins;
use pad_patch::Patch;

/// A merge, and where each unit that it inserts comes from.
#[derive(Debug, Drop)]
pub struct Sourced {
    /// The merge.
    pub patch: Patch,
    /// One origin for each unit that the merge inserts, from left to right.
    pub from: Origins,
}
