//! Conversations: commands are carried out one after another over a link, and what is to be read of them is written.
//!
//! A [`Speaker`] carries out a command: it gives texts that are sent and lines that are written, and may then wait for what is said back.
//! [`converse`] does this command by command. Where the link tells its texts, what was sent and written is that of a run of the speaker's
//! machine over the commands and the texts heard.
//!
//! ```text
//! link.dial("127.0.0.1:9001")?;
//! converse(alloc, commands, &mut speaker, &mut link, output)?;
//! ```
#![tactic(auto)]

mod conversing;
mod refused;
mod said;
mod speaker;

pub use conversing::converse;
pub use refused::{ConversationRefused, SpeakerRefused};
pub use said::Said;
pub use speaker::Speaker;

#[cfg(test)]
mod tests;
