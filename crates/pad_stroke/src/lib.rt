//! Unsent work: a patch each of whose inserted units is marked by the edit that typed it.
//!
//! A mark is the number of the edit and the index of the unit in what the edit typed. `edit` merges an operation on the
//! shown text into the work, `take_back` puts work that was sent in front of it again, `through` carries it over another's
//! patch, and `strip` takes out the units that another work has. Each mark stays with its unit; no mark stands twice after
//! a call if none did before and none stood in both works.
//!
//! ```text
//! let mut work = Work::new(alloc, text.hash(alloc)?)?;
//! work.edit(alloc, &text, op, stroke)?;
//! let patch = work.patch(alloc)?;
//! ```
#![tactic(auto)]

mod edit_refused;
mod editing;
mod joining;
pub mod laws;
mod mark;
mod stripping;
mod work;

pub use edit_refused::EditRefused;
pub use mark::Mark;
pub use work::Work;
