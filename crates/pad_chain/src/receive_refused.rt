ghost use Rattle.std.specs.Prelude.{◌≡◌, ◌↔◌};
ghost use Rattle.pad_graph.specs.declared.add_refused.AddRefused.TheVariants as add;
ghost use Rattle.pad_chain.specs.declared.receive_refused.ReceiveRefused.TheVariants.{Full, NoMemory};

use pad_graph::AddRefused;
use std::alloc::AllocError;
use thiserror::Error;

/// Why a message was not received.
#[derive(Clone, Copy, Debug, PartialEq, Eq, Error)]
pub enum ReceiveRefused {
    /// The chain knows as many names as it may.
    #[error("too many names are known")]
    Full,
    /// Memory ran out.
    #[error("out of memory")]
    NoMemory(AllocError),
}

impl From<AllocError> for ReceiveRefused {
    ghost from_gives = { λ error refused. refused ≡ NoMemory error };

    fn from(error: AllocError) -> ReceiveRefused {
        ReceiveRefused::NoMemory(error)
    }
}

impl From<AddRefused> for ReceiveRefused {
    ghost from_gives = { λ error refused. (refused ≡ Full) ↔ (error ≡ add.Full) };

    fn from(error: AddRefused) -> ReceiveRefused {
        match error {
            AddRefused::Full => ReceiveRefused::Full,
            AddRefused::NoMemory(error) => ReceiveRefused::NoMemory(error),
        }
    }
}
