//! The hub: rooms, and a history keeper behind them, event by event.
//!
//! A [`Hub`] answers the events of connections. Rooms are those of `netflux_rooms`; what is for the keeper, a message to a channel or a question,
//! goes to a [`Keep`], which has a list of entries for each channel in the files of a volume. Each step is that of the serve machine:
//!
//! ```text
//! let mut hub = Hub::new(alloc, key, stream)?;
//! let outs = hub.step(alloc, &mut keeper, &mut volume, moment, event)?;
//! ```
#![tactic(auto)]

mod history;
mod hub;
mod keep;
mod laws;

pub use hub::Hub;
pub use keep::Keep;
pub use laws::{acknowledged_entries_are_the_last, stored_entries_stay, unfailing_runs_hold_all};

#[cfg(test)]
mod tests;
