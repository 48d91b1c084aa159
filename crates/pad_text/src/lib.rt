//! Texts as UTF-16 units, and SHA-256 names.
#![tactic(auto)]

mod digits;
mod laws;
mod name;
mod pair;
mod plain_text;
mod text;
mod utf8;
mod wellformed;

pub use digits::is_lower_hex;
pub use laws::{
    names_are_ordered_by_digits, texts_are_kept_by_cuts, texts_are_kept_by_joins,
    texts_are_kept_by_utf8,
};
pub use name::Name;
pub use pair::{is_first_of_pair, is_second_of_pair};
pub use plain_text::plain;
pub use text::Text;
pub use utf8::feed_utf8;

#[cfg(test)]
mod tests;
