//! What is kept of a pad as checkpoints come: the cut of a path, the kept root, and how many messages overtook.
//!
//! A `Pruning` has the root and the count. `settle` moves the root up to the cut of the best chain and drops what is not
//! linked through it; `count_below` counts what became linked below the root and bettered the best chain.
//!
//! ```rust
//! let mut pruning = Pruning::new(base);
//! let dropped = pruning.settle(alloc, &mut graph, &marks)?;   // the marks of the best chain above the root
//! pruning.count_below(&linkings, &best);                      // what `Graph::add` told as `Below`
//! ```
#![tactic(auto)]

mod cuts;
mod laws;
mod marks;
mod path_mark;
mod place;
mod pruning;

pub use cuts::cut;
pub use laws::{linked_paths_are_chains, roots_rise_to_cuts_above};
pub use marks::Marks;
pub use path_mark::PathMark;
pub use place::Place;
pub use pruning::Pruning;

#[cfg(test)]
mod tests;
