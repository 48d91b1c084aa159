//! A pad's chain: which messages came, which of them is the end of the chosen path, and the text there.
//!
//! A chain stands for a base, the list of the messages received and what is chosen of them (`StandsFor`). It keeps one text,
//! that of the chosen path.
//!
//! ```rust
//! let mut chain = Chain::<VecUnits>::new(alloc)?;           // from the first base on
//! let chain = Chain::<VecUnits>::adopt(alloc, &message)?;   // from a checkpoint on
//! let moved = chain.receive(alloc, message, &mut steps)?;   // what left the chosen path, and what came onto it
//! let (best, text) = (chain.best(), chain.text());
//! ```
#![tactic(auto)]

mod adopt_refused;
mod chain;
mod laws;
mod marks;
mod moved;
mod receive_refused;
mod settling;
mod tables;

pub use adopt_refused::AdoptRefused;
pub use chain::Chain;
pub use laws::{named_texts_are_met, stood_is_known};
pub use moved::{Moved, Moves};
pub use pad_branch::Move;
pub use receive_refused::ReceiveRefused;

#[cfg(test)]
mod checkpoint_tests;
#[cfg(test)]
mod tests;
