use gated_log::Damage;
use std::alloc::AllocError;
use thiserror::Error;

/// Why a call of the keeper was refused.
#[derive(Clone, Copy, Debug, PartialEq, Eq, Error)]
pub enum KeeperRefused {
    /// There is no room: in the channel's log for what was to be stored, or in the keeper for one more channel.
    #[error("there is no room")]
    Full,
    /// A call of the volume failed.
    #[error("the volume failed")]
    Store,
    /// The channel's files are damaged.
    #[error("the channel is damaged: {0}")]
    Damaged(Damage),
    /// Memory ran out.
    #[error("out of memory")]
    NoMemory(AllocError),
}
