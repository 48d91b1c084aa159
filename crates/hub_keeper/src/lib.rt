//! The keeper that has channels' lists in logs, as a hub wants one.
//!
//! A `Hub` of `netflux_core` asks any `Keep`; [`HubKeeper`] is one, over the `Keeper` of `keeper_log`.
//!
//! ```text
//! logs_are_apart::<Log>();
//! let mut keeper: HubKeeper<Log, Log> = HubKeeper::new(alloc);
//! let outs = hub.step(alloc, &mut keeper, &mut volume, moment, event)?;
//! ```
#![tactic(auto)]

mod hub_keeper;
mod laws;

pub use hub_keeper::HubKeeper;
pub use laws::{logs_are_apart, logs_are_of_files};

#[cfg(test)]
mod tests;
