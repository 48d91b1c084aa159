//! A client that carries out the lines of a client script.
//!
//! A [`ScriptedClient`] is a client with what the last line still has to hear. It is a speaker of `pad_conversation`: a line makes the
//! client's call, and gives its texts, or the line `refused LINE WORD`, or the report. A text that is heard may give `error SEQ WORD`.
//!
//! ```text
//! let mut client = ScriptedClient::<Rope, L>::new(alloc, blank)?;
//! converse(alloc, read_script(alloc, script)?.as_slice(), &mut client, &mut link, output)?;
//! ```
#![tactic(auto)]

mod hearing;
mod saying;
mod scripted;
mod words;

pub use hearing::Hearing;
pub use scripted::ScriptedClient;

#[cfg(test)]
mod tests;
