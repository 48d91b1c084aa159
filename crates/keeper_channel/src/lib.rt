//! One channel of the history keeper: the list in its two log files, and how it stays whole.
//!
//! A channel has a log of form One and a log of form Two. While that of form Two has no marker (a payload without bytes), the list is
//! that of form One, with the moment 0 in front of each entry; from the marker on it is that of form Two, without the marker. A store
//! to a channel without a marker first makes form Two an empty log, copies the entries of form One into it, and then appends the
//! marker. A `Slot` is a loaded channel: its logs, and an index of its list; a `CheckedChannel` is one that is loaded to be read alone,
//! without an index. Each entry is looked at while a channel is loaded. At each moment of each call a crash leaves files whose list is
//! the one that was held, or that one with what is in suspense. The contracts hold for every two ledgers.
//!
//! ```text
//! let slot: Slot<Log, Log> = load_slot(alloc, volume, "c.padlog", "c.padlog2")?;
//! let payload = read_entry(alloc, volume, &slot, slot.index.start())?;
//! let stored = store_slot(alloc, volume, "c.padlog", "c.padlog2", Some(slot), &entries);
//! ```
#![tactic(auto)]

mod adding;
mod checked;
mod checking;
mod grouping;
mod indexing;
mod keeping;
mod laws;
mod laws_of_slots;
mod loading;
mod logs;
mod marker;
mod migrating;
mod moving;
mod opening;
mod reading;
mod refused;
mod reloading;
mod room;
mod slot;
mod stores;
mod storing;

pub use checked::CheckedChannel;
pub use keeping::store_entries;
pub use laws::{moved_entries_are_the_list, what_follows_a_marker_is_appended};
pub use laws_of_slots::{
    a_crash_leaves_what_is_kept, other_channels_are_kept, unloaded_channels_are_kept,
};
pub use logs::Logs;
pub use opening::{load_checked, load_slot};
pub use reading::{read_checked, read_entry};
pub use refused::KeeperRefused;
pub use reloading::reload;
pub use room::has_room;
pub use slot::{Slot, Stored};
pub use stores::store_slot;

#[cfg(test)]
mod tests;
