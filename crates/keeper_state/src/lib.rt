//! What a history keeper has of a channel, and what calls make of it: words that the keeper's contracts and those of a hub over it share.
//!
//! A channel was not loaded yet, is loaded, or has to be loaded again (`State`); `StandsFor` says which of the three a slot of the keeper's
//! table is on a disk. The crate runs nothing: it has these definitions, and laws on what a crash and calls on other channels leave of a
//! channel's list. A proof calls the function:
//!
//! ```text
//! keeper_state::channels_keep_their_lists::<O, G>();
//! // from here on a proof may use it: a crash leaves of each channel what is held, with what is in suspense or without
//! ```
#![tactic(auto)]

mod laws;

pub use laws::{channels_keep_their_lists, loads_find_the_same, other_channels_stand};
