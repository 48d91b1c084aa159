//! What the command `serve` does: it keeps the channels of a folder, and serves them at an address.
//!
//! ```text
//! let words = ServeWords { address, folder, turns };
//! serve(alloc, &words, key, keeper, &mut output, &mut volume, &mut port, &mut clock)?; // writes `turns N`
//! ```
#![tactic(auto)]

mod refused;
mod serving;
mod words;

pub use refused::ServeRefused;
pub use serving::serve;
pub use words::ServeWords;
