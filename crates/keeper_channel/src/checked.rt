use crate::logs::Logs;

/// A channel that is loaded to be read alone: its logs, and how many entries its list has. Each of them was looked at. There are no
/// keys, so it takes less time and memory than a slot.
#[derive(Drop)]
pub struct CheckedChannel<O, G> {
    /// Its logs.
    pub logs: Logs<O, G>,
    /// How many entries it has.
    pub count: u64,
}
