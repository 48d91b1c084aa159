//! A hub and its keeper over a volume in memory, with stops and reopenings.
//!
//! A [`WorldHub`] has a `Hub` of `netflux_core` and a `Keep` for it. Its moments count its steps. A stop that is set lets a call of the
//! volume and all later ones fail; a reopening goes on over what that left.
//!
//! ```text
//! let mut hub = WorldHub::new(alloc, keeper)?;
//! let outs = hub.step(alloc, Event::Opened(0))?;
//! hub.stop_at(3, Pick::Old);
//! hub.reopen(alloc, new_keeper)?;
//! ```
#![tactic(auto)]

mod world_hub;

pub use world_hub::WorldHub;

#[cfg(test)]
mod tests;
