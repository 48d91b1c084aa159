use crate::logs::Logs;
use crate::refused::KeeperRefused;
use keeper_entry::Index;

/// A channel that is loaded: its logs, and the index of its list.
#[derive(Drop)]
pub struct Slot<O, G> {
    /// Its logs.
    pub logs: Logs<O, G>,
    /// What is known of its entries.
    pub index: Index,
}

/// What a store left of a channel, and its answer.
#[derive(Drop)]
pub struct Stored<O, G> {
    /// The channel. There is none if it has to be loaded again.
    pub slot: Option<Slot<O, G>>,
    /// The index of the first of the entries that were stored.
    pub answer: Result<u64, KeeperRefused>,
}
