//! Texts that change in place and that copies share.
//!
//! A `Rope` is a `UnitStore`: it stands for one text, a list of UTF-16 units, and each of its calls does to that list what the
//! call of the trait says. Its units stand in the leaves of a balanced tree, whose nodes copies share. So a replacement costs
//! the logarithm of the text's length and the length of the insertion, and a copy costs nothing that grows. `remember` keeps
//! hashers on the way through the text, from which a later `hash` goes on, up to the first unit that changed.
//!
//! ```
//! let mut rope = Rope::from_text(alloc, &text)?;
//! let before = rope.copy(alloc)?;
//! rope.replace(alloc, from, to, &insert)?;
//! rope.remember(alloc)?;
//! let hash = rope.hash(alloc)?;
//! ```
#![tactic(auto)]

mod edit;
mod join;
mod read;
mod rope;
mod saved;
mod tree;

pub use rope::Rope;
pub use tree::LEAF_SIZE;

#[cfg(test)]
mod tests;
