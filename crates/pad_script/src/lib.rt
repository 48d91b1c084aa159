//! The grammars of client scripts and of session scripts, and how many of their lines make requests.
//!
//! A script has one command a line. `read_client_line` and `read_session_line` tell what one line says, and refuse exactly
//! the lines that say nothing of the grammar; `read_script` and `read_session` give the commands of a whole script, each with
//! the number of its line, or the number of the first line that is outside the grammar. What a command does is the matter of
//! the crates above.
//!
//! ```text
//! let commands = read_script(alloc, b"join 00112233445566778899aabbccddeeff\nedit 0 0 \"hi\"\nsync\n")?;
//! for command in commands.as_slice() {
//!     match &command.act {
//!         Act::Edit(operation) => ..,
//!         ..
//!     }
//! }
//! ```
#![tactic(auto)]

mod act;
mod client_line;
mod command;
mod laws;
mod line_refused;
mod numbers;
mod parts;
mod requests;
mod script;
mod script_refused;
mod session_act;
mod session_line;

pub use act::Act;
pub use client_line::read_client_line;
pub use command::{Command, Commands};
pub use laws::{lines_say_one_act, lines_say_one_session_act, requests_are_bounded};
pub use line_refused::LineRefused;
pub use numbers::{long_number, number_within};
pub use requests::{LEAST_BYTES, MOST_EACH, MOST_REQUESTS, may_request};
pub use script::{read_script, read_session};
pub use script_refused::ScriptRefused;
pub use session_act::{MOST_CLIENTS, SessionAct};
pub use session_line::read_session_line;

#[cfg(test)]
mod tests;
