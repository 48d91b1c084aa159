ghost use Rattle.std.specs.Prelude.{◌≡◌};
ghost use Rattle.client_requests.specs.declared.client_refused.ClientRefused.TheVariants.{NoMemory};

use std::alloc::AllocError;
use thiserror::Error;

/// Why a call is refused. The first cause in this order is told, and nothing is changed.
#[derive(Clone, Copy, Debug, PartialEq, Eq, Error)]
pub enum ClientRefused {
    /// A repair runs.
    #[error("a repair runs")]
    Repairing,
    /// No channel is joined.
    #[error("no channel is joined")]
    NotJoined,
    /// A channel is joined, or being joined.
    #[error("a channel is joined")]
    Joined,
    /// The client has joined another channel before.
    #[error("another channel was joined before")]
    OtherChannel,
    /// No keeper of the channel was heard on this connection since the client asked to join.
    #[error("no keeper was heard")]
    NoKeeper,
    /// An earlier history is asked.
    #[error("a history is asked already")]
    Asking,
    /// Memory ran out.
    #[error("out of memory")]
    NoMemory(AllocError),
}

impl From<AllocError> for ClientRefused {
    ghost from_gives = { λ error refused. refused ≡ NoMemory error };

    fn from(error: AllocError) -> ClientRefused {
        ClientRefused::NoMemory(error)
    }
}
