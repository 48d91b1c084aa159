//! A graph of names and their parents: which messages hang on the base and at what height, which wait for a parent, and
//! which are gone since a root was chosen above them.
//!
//! A graph stands for the links that were added and for a root; each call says what it stands for afterwards.
//!
//! ```rust
//! let mut graph = Graph::new(alloc, base)?;
//! graph.add(alloc, reply, message)?;                  // Waiting: its parent is not there
//! let added = graph.add(alloc, message, base)?;       // Linked: the message at height 1, the reply at height 2
//! graph.keep_from(alloc, &message)?;                  // the message is the root, and the base is gone
//! ```
#![tactic(auto)]

mod add_refused;
mod added;
mod graph;
mod hanging;
mod last;
mod laws;
mod linking;
mod linkings;
mod marking;
mod node;
mod standing;
mod tables;

pub use add_refused::AddRefused;
pub use added::Added;
pub use graph::{Graph, MOST_NAMES};
pub use laws::{chains_are_one, graphs_tell_the_same, new_chains_have_the_link};
pub use linking::Linking;
pub use linkings::Linkings;
pub use standing::Standing;

#[cfg(test)]
mod tests;
