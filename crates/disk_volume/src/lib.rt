//! Files by name on a disk: a trait that says what a read gives and what a crash may leave, and a fake in memory.
//!
//! A [`Volume`] is the files of one folder. A call fails only if its count of faults rose in it. Until a file is synced, a
//! crash may leave old bytes, new bytes or any others in each range that was written; after a sync that answered `Ok` it
//! leaves what a read gives. So a caller that needs an order on the disk syncs in between:
//!
//! ```text
//! let end = volume.length("a")?;
//! write_synced(volume, "a", end, b"an entry")?;
//! write_synced(volume, "a", 0, b"its count")?;
//! ```
//!
//! [`MemVolume`] keeps the record of its calls, stops in the call that it is told to, and gives the volume that is left.
#![tactic(auto)]

mod bytes;
mod done;
mod folder;
mod mem_volume;
mod pending;
mod pick;
mod stop;
mod synced;
mod volume;

pub use mem_volume::MemVolume;
pub use pick::Pick;
pub use synced::{settle, write_synced};
pub use volume::Volume;
