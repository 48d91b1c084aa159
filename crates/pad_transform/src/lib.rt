//! Patches on a text that another patch changed first.
//!
//! Two patches are for one text. `transform` gives the first one on the text after the second one: each of its operations
//! goes through the second one's operations by a table of four cases. What it removes is what it removed before and the
//! second one kept; what it inserts stays.
//!
//! ```text
//! // both can be applied to a text whose length, with its length after `by`, is less than 2^32
//! sums_fit_within();
//! let moved = transform(alloc, &patch, &by, &hash_after_by)?;
//! ```
#![tactic(auto)]

pub mod laws;
mod patches;
mod table;

pub use patches::transform;
pub use table::transform_op;

#[cfg(test)]
mod tests;
