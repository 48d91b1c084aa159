//! The row of a client's committed text: which of its units the user typed, and in which edit.
//!
//! Laws alone. A row has an entry for each unit: the mark of the edit that typed it, or nothing. It goes along as messages leave the best chain and come onto it,
//! and needs of each that left no more than the entries of the units that it had removed. Each law is the contract of a function that only calls the laws on which
//! it stands:
//!
//! ```text
//! client_row::laws::follows_moves();
//! // from here on a proof may use `FollowsMoves` of the moves at hand
//! ```
#![tactic(auto)]

pub mod laws;
