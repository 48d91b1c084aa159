use crate::entries::Entries;

/// What a history is answered by.
#[derive(Debug, Drop)]
pub enum Answer {
    /// There are so many entries in all, and these are those from the start of the history on.
    Entries(u64, Entries),
    /// No entry has the key.
    Unknown,
}
