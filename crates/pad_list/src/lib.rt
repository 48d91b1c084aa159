//! Words on plain lists that the definitions of several crates share.
//!
//! `NoRepeat` says that nothing is in a list twice, and `IsNumberOf` how many different things a statement holds of. The
//! crate runs nothing: it has these two definitions, the lemmas that the proofs of the crates above cite, and the law
//! that makes a count worth stating. A proof calls the function:
//!
//! ```text
//! pad_list::laws::one_number();
//! // from here on a proof may use `OneNumber`: two counts of the same numbers are equal
//! ```
#![tactic(auto)]

pub mod laws;
