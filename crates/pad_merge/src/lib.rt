//! Merging two patches, one on the text after the other, into one.
//!
//! The merge of two patches does on a text what the first patch and then the second one do, in normal form: no two
//! operations touch, and none is empty. `merge_from` also answers where each inserted unit comes from.
//!
//! ```text
//! // `first` can be applied to a text of `len` units, and `second` to the text after it
//! applied_patches_merge();
//! let both = merge(alloc, &first, &second, len)?;
//! ```
#![tactic(auto)]

mod checking;
mod copied_unit;
mod gaps;
pub mod laws;
mod merging;
mod origin;
mod origins;
mod side;
mod sourced;

pub use checking::{can_merge, can_merge_back};
pub use merging::{merge, merge_from};
pub use origin::Origin;
pub use origins::Origins;
pub use sourced::Sourced;

#[cfg(test)]
mod tests;
