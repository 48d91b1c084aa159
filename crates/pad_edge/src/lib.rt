//! What goes in and out of the program, as traits, and fakes in memory.
//!
//! A [`Source`] gives bytes, a [`Sink`] takes them, a [`Clock`] shows moments, a [`Link`] is a connection to a server, and a
//! [`Port`] has the connections of a server's clients. A call on one fails only if a count rose in that call, so a function
//! over any of them can say exactly when its own failure comes from outside. The fakes ([`MemSource`], [`MemSink`],
//! [`MemClock`], [`MemLink`], [`MemPort`]) have what comes and goes, and their failures, in memory, and contracts know all of
//! it. A caller reads until the end:
//!
//! ```text
//! let mut buf = [0; 4096];
//! loop {
//!     match source.read(&mut buf)? {
//!         0 => return Ok(()),
//!         count => use_bytes(&buf[..count]),
//!     }
//! }
//! ```
#![tactic(auto)]

mod arrival;
mod calls;
mod clock;
mod failed;
mod link;
mod link_refused;
mod mem_clock;
mod mem_link;
mod mem_port;
mod mem_sink;
mod mem_source;
mod port;
mod port_event;
mod sent;
mod sink;
mod source;
mod sure_sink;
mod sure_source;
mod unread;
mod wire;
mod wires;

pub use arrival::Arrival;
pub use clock::Clock;
pub use failed::Failed;
pub use link::Link;
pub use link_refused::LinkRefused;
pub use mem_clock::MemClock;
pub use mem_link::MemLink;
pub use mem_port::MemPort;
pub use mem_sink::MemSink;
pub use mem_source::MemSource;
pub use port::Port;
pub use port_event::PortEvent;
pub use sent::Sent;
pub use sink::Sink;
pub use source::Source;
pub use sure_sink::SureSink;
pub use sure_source::SureSource;
pub use wire::Wire;
pub use wires::Wires;

#[cfg(test)]
mod tests;
