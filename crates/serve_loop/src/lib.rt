//! Serving: a port and a machine, one beside the other, event by event.
//!
//! A [`Machine`] takes an event and answers with outputs; it acts on a world of its own as it does, say the files of a folder. [`serve`] hears
//! the events of a port, hands each to the machine with its moment, and carries out what the machine wants. Where port and world tell, what
//! went out is that of a run of the machine over the events given, whichever sends failed. A caller makes the machine and listens:
//!
//! ```text
//! port.listen("127.0.0.1:9001")?;
//! let made = serve(alloc, &mut port, &mut machine, &mut files, &mut clock, turns)?;
//! ```
#![tactic(auto)]

mod closing;
mod delivering;
mod event;
mod laws;
mod machine;
mod out;
mod serving;

pub use event::Event;
pub use laws::outputs_may_go;
pub use machine::Machine;
pub use out::{Out, Outs};
pub use serving::serve;

#[cfg(test)]
mod tests;
