//! The best branch of a chain, with one text: that at its end. What comes before it is had by taking messages back.
//!
//! A path that could be the best one is tested by rewinding the text to the fork and going forward from there, message by message;
//! each `apply` and each `invert` is a step that is counted. Of a path that is not sound the first message that is not is told, and
//! what hangs on it is marked, so that it is not tested again.
//!
//! ```text
//! let plan = branch.choose(alloc, &messages, &graph, linkings.as_slice(), &mut steps)?;
//! if let Some(won) = plan.won {
//!     branch.reserve(won.undos.len())?;          // the last that can fail
//!     branch.switch_to(won, &mut reverted);      // takes no memory
//! }
//! ```
#![tactic(auto)]

mod branch;
mod candidate;
mod candidates;
mod choose;
mod forward;
mod held;
mod laws;
mod moved;
mod moving;
mod passing;
mod plan;
mod position;
mod rewind;
mod tested;
mod tip;
mod undo;
mod walk;
mod won;

pub use branch::Branch;
pub use held::Held;
pub use laws::{
    found_above, found_stays, known_above, marks_pass, root_stays, root_text, stays_known,
    trunk_stays,
};
pub use moved::{Move, applied, reverted};
pub use plan::Plan;
pub use tip::Tip;
pub use undo::Undo;
pub use won::Won;

#[cfg(test)]
mod tests;
