//! Links and ports over TCP, with WebSocket messages (RFC 6455), on one thread.
//!
//! A [`WsPort`] listens at an address and has the connections of many clients beside one another: the system says which of
//! them are ready. A [`WsLink`] is one connection to a server. Contracts know their counts and nothing of what goes over
//! the wire.
//!
//! ```text
//! let mut port = WsPort::new(rt.alloc(), rt.clone()?);
//! port.listen("127.0.0.1:9001")?;
//! for _ in 0..turns {
//!     if let PortEvent::Text(connection, text) = port.next()? {
//!         port.send(connection, text.as_str())?;
//!     }
//! }
//! ```
#![tactic(auto)]

mod client;
mod failing;
mod server;
mod ws_link;
mod ws_port;

pub use ws_connection::MESSAGE_BYTES;
pub use ws_link::WsLink;
pub use ws_outbox::{ALL_UNSENT_BYTES, UNSENT_BYTES};
pub use ws_port::WsPort;

#[cfg(test)]
mod tests;
