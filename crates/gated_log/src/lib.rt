//! A list of payloads in the files of a volume, which a stop at any moment leaves whole.
//!
//! `Ledger` is the trait: a list that is loaded, primed, appended to and read by index. Its contract: since an append
//! began, a crash leaves files that open as the list or as the list and what was appended, and after `Ok` as the latter.
//! `Log` is a ledger in one file, by the gates of `log_format`: an append writes its entries behind a closed gate, syncs,
//! opens the gate with one byte, and syncs. Layers above speak of the meanings of `Ledger` and never of a gate.
//!
//! ```text
//! let mut log = Log::load(alloc, volume, "c.padlog", Form::One)?;
//! let frame = Frame::build(alloc, payload)?;
//! log.reserve_one(alloc)?;           // memory for one append
//! log.prime(volume, frame.size())?;  // closes the last gate
//! let index = log.append(volume, &frame)?;
//! ```
#![tactic(auto)]

mod entry;
mod extent;
mod gate;
mod index;
mod ledger;
mod loading;
mod log;
mod piece;
mod priming;
mod reading;
mod refused;
mod restarting;
mod walk;
mod walking;

pub use ledger::Ledger;
pub use log::Log;
pub use log_format::{
    Damage, EMPTY_LOG, ENTRY_HEAD, Form, Frame, Frames, MAGIC_SIZE, Payload, Payloads,
    opens_with_its_doubt, reopens,
};
pub use refused::{AppendRefused, LoadRefused, PayloadRefused};

#[cfg(test)]
mod tests;
