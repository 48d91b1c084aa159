//! Rows of marks: for each unit of a text its mark, or nothing.
//!
//! A patch with marks for the units that it inserts carries a row over a row. The laws here say what becomes of each
//! mark and of each removal as works are taken back, carried and stripped, and that own work stands once over each of
//! these steps. Each law is the contract of a public function with an empty body; a proof calls the function:
//!
//! ```text
//! pad_row::own::own_reverted();
//! // from here on a proof may use `OwnReverted` of the works at hand
//! ```
#![tactic(auto)]

pub mod edits;
pub mod laws;
pub mod own;
pub mod pairs;
pub mod taking_back;
