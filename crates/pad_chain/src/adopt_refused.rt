ghost use Rattle.std.specs.Prelude.{◌≡◌};
ghost use Rattle.pad_chain.specs.declared.adopt_refused.AdoptRefused.TheVariants.{NoMemory};

use std::alloc::AllocError;
use thiserror::Error;

/// Why a message was not adopted.
#[derive(Clone, Copy, Debug, PartialEq, Eq, Error)]
pub enum AdoptRefused {
    /// It is no checkpoint that spells the text whole for which it was made.
    #[error("the message can not be a base")]
    NotACheckpoint,
    /// Memory ran out.
    #[error("out of memory")]
    NoMemory(AllocError),
}

impl From<AllocError> for AdoptRefused {
    ghost from_gives = { λ error refused. refused ≡ NoMemory error };

    fn from(error: AllocError) -> AdoptRefused {
        AdoptRefused::NoMemory(error)
    }
}
