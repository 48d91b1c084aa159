//! The texts of Netflux: requests, replies, and what the history keeper is asked.
//!
//! Each text is a plain JSON array of a known form. `read_request`, `read_reply` and `read_ask` give the value that a text
//! spells, and refuse exactly the texts that spell none; `text` of `Request`, `Reply` and `Ask` writes the compact text, which
//! spells that value again. Whether a channel was joined or a target is there is the hub's matter.
//!
//! ```text
//! match read_request(alloc, text) {
//!     Ok(request) => .., // request.seq, and in request.body what is asked
//!     Err(RequestRefused::Invalid(seq)) => .., // Reply::Error(seq, Word::Einval, ..)
//!     Err(RequestRefused::NoMemory(refused)) => ..,
//! }
//! ```
#![tactic(auto)]

mod ask;
mod ask_reading;
mod ask_refused;
mod body;
mod digits;
mod fields;
mod laws;
mod reply;
mod reply_reading;
mod reply_refused;
mod reply_writing;
mod request;
mod request_reading;
mod request_refused;
mod since;
mod who;
mod word;

pub use ask::Ask;
pub use ask_reading::read_ask;
pub use ask_refused::AskRefused;
pub use body::Body;
pub use digits::{Channel, Digits, Id, KeeperId, OfChannel, OfConnection, OfKeeper};
pub use laws::{
    ask_texts_spell, reply_texts_spell, request_texts_spell, texts_spell_one_ask,
    texts_spell_one_reply, texts_spell_one_request,
};
pub use reply::{MOST_ENTRIES, Reply};
pub use reply_reading::read_reply;
pub use reply_refused::ReplyRefused;
pub use request::Request;
pub use request_reading::read_request;
pub use request_refused::RequestRefused;
pub use since::Since;
pub use who::Who;
pub use word::Word;

#[cfg(test)]
mod tests;
