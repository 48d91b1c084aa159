//! Plain JSON texts (RFC 8259) whose values are whole numbers, strings and arrays: the form of every text on the wire and of
//! every message.
//!
//! A text is plain where no sign, fraction or exponent stands outside its strings. `read_plain` gives the value that a plain
//! JSON text spells, and none for any other text; `number_from` and `name_from` tell the number or the name that a value
//! is. A compact text that `serde_json` prints for a value of whole numbers, strings and arrays spells that value again.
//!
//! ```text
//! let Some(elements) = read_array(alloc, "[7, \"…64 digits…\"]")? else { return Ok(None) };
//! let (Some(number), Some(name)) = (number_from(&elements[0]), name_from(&elements[1])) else { return Ok(None) };
//! ```
#![tactic(auto)]

mod laws;
mod name;
mod number;
mod reading;

pub use laws::{arrays_have_one_list, compact_texts_spell, texts_spell_one_value};
pub use name::{name_from, name_value};
pub use number::number_from;
pub use reading::{read_array, read_plain};

#[cfg(test)]
mod tests;
