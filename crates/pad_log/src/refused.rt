use log_format::Damage;
use std::alloc::AllocError;
use thiserror::Error;

/// Why not all of a channel's log was written.
#[derive(Clone, Copy, Debug, PartialEq, Eq, Error)]
pub enum LogRefused {
    /// A write failed.
    #[error("a write failed")]
    Write,
    /// A call of the volume failed.
    #[error("the volume failed")]
    Store,
    /// The channel's files are damaged.
    #[error("the channel is damaged: {0}")]
    Damaged(Damage),
    /// Memory ran out.
    #[error("out of memory")]
    NoMemory(AllocError),
}
