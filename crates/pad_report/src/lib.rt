//! The report of the messages received, as text: eleven lines, each a word and a value.
//!
//! A contract sees the text as the lines of `pad_model`'s definition (`report_lines`), of the values of a `Report` and the text after
//! the best chain. Who has the text has its document hash, so nothing is hashed here.
//!
//! ```text
//! let report = Report { best, height, hash, known, waiting, unreadable, root, root_height, kept, overtaken };
//! let lines = report.lines(alloc, &text)?;
//! ```
#![tactic(auto)]

mod report;

pub use report::Report;

#[cfg(test)]
mod tests;
