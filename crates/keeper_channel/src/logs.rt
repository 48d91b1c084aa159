/// The logs of a channel that is loaded.
#[derive(Drop)]
pub enum Logs<O, G> {
    /// The log of form Two has no marker yet, so the channel's list is that of form One.
    Unmoved {
        /// The log of form One.
        one: O,
        /// The log of form Two, whose entries mean nothing.
        two: G,
    },
    /// The log of form Two has a marker, so it is the channel's.
    Moved {
        /// The log of form Two.
        log: G,
        /// The index of the marker in it.
        marker: u64,
    },
}

/// The logs after a payload was stored in them, and its index in the channel's list.
#[derive(Drop)]
pub struct Added<O, G> {
    /// The logs.
    pub logs: Logs<O, G>,
    /// The index of the entry.
    pub index: u64,
}
