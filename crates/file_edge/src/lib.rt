//! The system behind the traits: files in a folder, the clock, and the readers and writers of std.
//!
//! [`FileVolume`] is a `Volume` over a folder, [`SystemClock`] the system's clock, [`ReaderSource`] and [`WriterSink`] a
//! source and a sink over any reader and writer of std. They count their calls and failures, and what a reader or a
//! writer of std says of its bytes they pass on. Of files and time they say nothing. A program makes them once and hands
//! them down:
//!
//! ```text
//! let mut input = ReaderSource::new(rt.stdin());
//! let mut volume = FileVolume::new(rt.alloc(), rt.clone()?);
//! volume.root("pads")?;
//! ```
#![tactic(auto)]

mod ahead;
mod file_volume;
mod folder;
mod lost;
mod name;
mod open_file;
mod reader_source;
mod system_clock;
mod writer_sink;

pub use file_volume::FileVolume;
pub use reader_source::ReaderSource;
pub use system_clock::SystemClock;
pub use writer_sink::WriterSink;

#[cfg(test)]
mod tests;
