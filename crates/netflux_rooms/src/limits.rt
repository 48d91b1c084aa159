/// The most connections that are open at a time.
pub const MOST_CONNECTIONS: usize = 1024;

/// The most channels that a connection has joined at a time.
pub const MOST_CHANNELS: usize = 64;

/// The most bytes of the content of a message.
pub const LONGEST_MESSAGE: usize = 2_097_152;
