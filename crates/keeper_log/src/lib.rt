//! The history keeper: a list of entries for each channel, in files of a volume.
//!
//! A [`Keeper`] stores entries behind a channel's list and answers histories of it, whole or from an entry on. It loads a channel when
//! it is first needed, and again after a call of the volume failed. What a crash leaves of a list is what the calls' contracts say
//! ([`Keeper::store`]).
//!
//! ```text
//! let mut keeper: Keeper<Log, Log> = Keeper::new(alloc);
//! let index = keeper.store(alloc, volume, &channel, moment, &sender, "m")?;
//! let answer = keeper.history(alloc, volume, &channel, &Since::Default)?;
//! ```
#![tactic(auto)]

mod answer;
mod entries;
mod keeper;
mod loading;
mod reading;
mod storing;

pub use answer::Answer;
pub use entries::Entries;
pub use keeper::Keeper;

#[cfg(test)]
mod tests;
