//! What has to be believed of a pad: its best chain, what is kept of it as messages come, adoption, and the report.
//!
//! The crate has definitions (`specs/`), laws over them, and the type of a base. It computes nothing; the contract of a
//! law's function is the law, and its body is empty. A program that finds the best chain has these definitions in its
//! contract, as `pad_plain` has.
//!
//! ```text
//! let base = Base::first(alloc);   // sixty-four zeros, the empty text, the interval 50
//! nothing_overtook();              // a proof that needs a law calls it
//! ```
#![tactic(auto)]

mod base;
mod laws;

pub use base::Base;
pub use laws::{
    adoption_changes_nothing, at_most_one_best, at_most_one_choice, at_most_one_report,
    best_at_base, best_through_its_root, checkpoints_can_be_adopted, few_overtake, never_worse,
    nothing_links, nothing_overtook, one_best_exists, one_linked_height, only_new_paths,
    order_changes_no_best, order_is_no_part, repeat_changes_no_choice, repeat_changes_no_report,
    root_on_chosen, root_rises, stays_best, stays_chosen,
};
