//! How many bytes may wait.

/// A connection over which more bytes than this wait when its port is asked for the next event takes no more of them: 32 MiB.
pub const UNSENT_BYTES: usize = 32 << 20;

/// How many bytes may wait over all connections together: 2 GiB.
pub const ALL_UNSENT_BYTES: usize = 2 << 30;
