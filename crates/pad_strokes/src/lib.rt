//! The strokes of a user: which of the user's edits an undo takes back, and which a redo repeats.
//!
//! A stroke keeps the operation that takes it back, on the text that stood after it. As long as no other change came in between, that gives the text before
//! it; then the operation of the stroke is kept, for a redo. After another change its units are taken out of the shown text, by its row of marks: an entry for each
//! unit, the mark of the edit that typed it, or nothing. Others may have torn them apart, so there is an edit for each run of them.
//!
//! ```text
//! let back = back_of(alloc, &op, &shown)?; // of an edit of the shown text
//! strokes.add(Stroke { number, back })?;   // then the edit is made
//! strokes.changed(alloc)?;                 // another's change came
//! let mut edits = removals(alloc, row, number)?; // so its units are taken out, the last edit first
//! ```
#![tactic(auto)]

mod back;
pub mod laws;
mod stroke;
mod strokes;
mod taking_out;

pub use back::back_of;
pub use stroke::Stroke;
pub use strokes::Strokes;
pub use taking_out::removals;

#[cfg(test)]
mod tests;
