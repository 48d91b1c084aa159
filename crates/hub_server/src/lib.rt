//! The hub and its keeper as a machine for the loop that serves a port.
//!
//! A [`Server`] has a `Hub` of `netflux_core` and a `Keep` for it. Each of its steps is the hub's.
//!
//! ```text
//! let mut server = Server::new(alloc, key, keeper)?;
//! let made = serve(alloc, &mut port, &mut server, &mut volume, &mut clock, turns)?;
//! ```
#![tactic(auto)]

mod server;

pub use server::Server;
