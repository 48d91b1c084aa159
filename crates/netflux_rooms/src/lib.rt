//! The rooms of a Netflux hub: who is connected, and who joined which channel.
//!
//! A [`RoomHub`] hears that connections open and close and what they say, and answers with the texts that go out, in order. Each step is
//! that of the rooms as lists: the connections in order of opening, the joins in order of joining. What the history keeper has to do first,
//! a message to a channel or a question, comes out of the step as a value:
//!
//! ```text
//! match hub.step(alloc, event)? {
//!     Heard::Done(outs) => .., // send them
//!     Heard::Store(number, seq, channel, content) => .., // store, then hub.post(alloc, number, seq, &channel, content)?
//!     Heard::Ask(number, seq, ask) => .., // read the history
//! }
//! ```
#![tactic(auto)]

mod channel_table;
mod channels;
mod heard;
mod identity;
mod key;
mod limits;
mod members;
mod names;
mod parting;
mod room_hub;
mod room_table;
mod seats;
mod target;
mod telling;

pub use heard::Heard;
pub use limits::{LONGEST_MESSAGE, MOST_CHANNELS, MOST_CONNECTIONS};
pub use room_hub::RoomHub;
pub use target::Target;
pub use telling::{push_one, refuse};

#[cfg(test)]
mod tests;
