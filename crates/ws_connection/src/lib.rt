//! One connection of a port: the handshake of a WebSocket (RFC 6455), its messages in turns, texts that wait to go out, and its end.
//! Its reads and writes do not wait.
//!
//! ```text
//! match Handshake::new(alloc, stream).go_on() {
//!     Shaken::Done(connection) => connections.insert(number, connection)?,
//!     Shaken::More(handshake) | Shaken::Blocked(handshake) => handshakes.insert(number, handshake)?, // goes on at once, or when it is ready
//!     Shaken::Failed => {}
//! }
//! let heard = connection.take_turn(turn, room);
//! connection.send(turn, "hello", room)?;
//! ```
#![tactic(auto)]

mod answer;
mod connection;
mod frames;
mod handshake;
mod heard;
mod inbox;
mod io_refusal;
mod settings;

pub use connection::Connection;
pub use handshake::{Handshake, Shaken};
pub use heard::Heard;
pub use io_refusal::refusal;
pub use settings::MESSAGE_BYTES;
