//! Lengths of the parts of a log file, in bytes.

/// The magic.
pub const MAGIC_SIZE: usize = 8;

/// What an entry has besides its payload: a gate, and the length of the payload.
pub const ENTRY_HEAD: u64 = 5;

/// The file of a log without entries: the magic and a gate.
pub const EMPTY_LOG: usize = 9;
