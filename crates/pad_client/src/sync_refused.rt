ghost use Rattle.std.specs.Prelude.{◌≡◌};
ghost use Rattle.pad_client.specs.declared.sync_refused.SyncRefused.TheVariants.{NoMemory};

use std::alloc::AllocError;
use thiserror::Error;

/// Why a sync is refused. The first cause in this order is told, and nothing is changed; but after want of memory the client may
/// only be dropped.
#[derive(Clone, Copy, Debug, PartialEq, Eq, Error)]
pub enum SyncRefused {
    /// A repair runs.
    #[error("a repair runs")]
    Repairing,
    /// No channel is joined.
    #[error("no channel is joined")]
    NotJoined,
    /// The shown text has more than 262,144 units, or the work more than 4,096 operations.
    #[error("the text or the work is too long")]
    TooLong,
    /// The outbox would hold more than 64 messages.
    #[error("too many messages were not acknowledged")]
    OutboxFull,
    /// The chain would know more names than it may.
    #[error("too many names are known")]
    Full,
    /// Memory ran out.
    #[error("out of memory")]
    NoMemory(AllocError),
}

impl From<AllocError> for SyncRefused {
    ghost from_gives = { λ error refused. refused ≡ NoMemory error };

    fn from(error: AllocError) -> SyncRefused {
        SyncRefused::NoMemory(error)
    }
}
