//! The plain, slow program over the definitions of `pad_model`: what is chosen after each message, and the report.
//!
//! A contract sees `Messages` as the list of the messages received, in the order in which they came. `Summary::of` is the
//! choice after them with the counts of a report, and `report` is the report as text, if no two different messages have
//! one name. For n messages it takes some n³ steps.
//!
//! ```text
//! let base = Base::first(alloc);
//! let mut messages = Messages::new(alloc);
//! messages.push(alloc, message)?;
//! let text = report(alloc, &base, &messages, unreadable)?;
//! ```
#![tactic(auto)]

mod best;
mod candidate;
mod choice;
mod cut;
mod evaluate;
mod interval;
mod kept;
mod links;
mod messages;
mod overtaking;
mod path;
mod summary;
mod walk;
mod writing;

pub use messages::Messages;
pub use path::Tip;
pub use summary::Summary;
pub use writing::report;

#[cfg(test)]
mod tests;
