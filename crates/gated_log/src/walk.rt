use crate::gate::Gate;

/// A walk over the entries of a log file, from its first gate on.
#[derive(Clone, Copy, Debug)]
pub struct Walk {
    /// The place of the gate before the one that it reached, where it went over an entry.
    pub before: u64,
    /// The place of the gate that it reached.
    pub gate: u64,
    /// Where the file ends.
    pub end: u64,
}

/// What a walk found in a piece of the file.
#[derive(Clone, Copy, Debug)]
pub enum Step {
    /// Entries, and it went over them.
    On(Walk),
    /// The gate at which it ends.
    Last(Gate),
}
