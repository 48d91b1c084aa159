//! Patches of texts: operations, when a patch fits a text, and the text after it.
//!
//! A patch copies a list with one element for each unit of a text from left to right, and puts what is new in place of what
//! it removes. `Patch::fits` answers the first misfit, `apply` gives the text after the patch, and `invert` the patch that
//! takes it back. Offsets and lengths are numbers of UTF-16 units.
//!
//! ```text
//! match patch.fits(&text, &hash) {
//!     Ok(()) => text = patch.apply(alloc, &text)?,
//!     Err(misfit) => return Err(misfit),
//! }
//! ```
#![tactic(auto)]

mod counted;
pub mod laws;
mod misfit;
mod operation;
mod operations;
mod patch;
mod steps;
mod unit_store;
mod vec_units;

pub use misfit::Misfit;
pub use operation::Operation;
pub use operations::Operations;
pub use patch::{LONGEST_TEXT, Patch};
pub use steps::Steps;
pub use unit_store::{UnitStore, cuts_pair};
pub use vec_units::VecUnits;

#[cfg(test)]
mod tests;
