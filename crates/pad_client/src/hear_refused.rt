ghost use Rattle.std.specs.Prelude.{◌≡◌, ◌↔◌};
ghost use Rattle.pad_chain.specs.declared.receive_refused.ReceiveRefused.TheVariants as receive;
ghost use Rattle.pad_client.specs.declared.hear_refused.HearRefused.TheVariants.{Full, NoMemory};

use pad_chain::ReceiveRefused;
use std::alloc::AllocError;
use thiserror::Error;

/// Why a text was not heard.
#[derive(Clone, Copy, Debug, PartialEq, Eq, Error)]
pub enum HearRefused {
    /// The chain knows as many names as it may, and that of the message that came is new. The client stands for what it stood for.
    #[error("too many names are known")]
    Full,
    /// Memory ran out. The client may only be dropped.
    #[error("out of memory")]
    NoMemory(AllocError),
}

impl From<AllocError> for HearRefused {
    ghost from_gives = { λ error refused. refused ≡ NoMemory error };

    fn from(error: AllocError) -> HearRefused {
        HearRefused::NoMemory(error)
    }
}

impl From<ReceiveRefused> for HearRefused {
    ghost from_gives = { λ error refused. (refused ≡ Full) ↔ (error ≡ receive.Full) };

    fn from(error: ReceiveRefused) -> HearRefused {
        match error {
            ReceiveRefused::Full => HearRefused::Full,
            ReceiveRefused::NoMemory(error) => HearRefused::NoMemory(error),
        }
    }
}
