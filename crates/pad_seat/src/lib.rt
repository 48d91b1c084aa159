//! A client with its connection to a hub in the same memory: the texts on their way to the hub, and those on their way to the client.
//!
//! A [`Seat`] makes the calls of its client for the lines of a script. What the client sends goes last on the way to the hub; of a call
//! that is refused the line `refused LINE WORD` is printed. Who owns the seat moves the texts.
//!
//! ```text
//! let mut seat = Seat::<Rope>::new(alloc)?;
//! seat.connect();
//! let printed = seat.join(alloc, 1, channel)?;     // nothing, or the line of the refusal
//! while let Some(text) = seat.take_up() { .. }     // to be handled by the hub
//! seat.put_down(text)?;                            // what the hub said
//! seat.hear(alloc, text.as_str(), &mut steps)?;
//! ```
#![tactic(auto)]

mod laws;
mod queue;
mod seat;
mod seat_refused;
mod words;

pub use laws::losses_stand;
pub use queue::Queue;
pub use seat::Seat;
pub use seat_refused::SeatRefused;
pub use words::refused_line;
