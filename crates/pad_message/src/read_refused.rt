ghost use Rattle.std.specs.Prelude.{◌≡◌};
ghost use Rattle.pad_message.specs.declared.read_refused.ReadRefused.TheVariants.{NoMemory};

use std::alloc::{AllocError, AllocFailed};
use thiserror::Error;

/// Why a content was not read.
#[derive(Debug, Drop, Error)]
pub enum ReadRefused {
    /// The content spells no message.
    #[error("the content spells no message")]
    Unreadable,
    /// No memory was left.
    #[error(transparent)]
    NoMemory(AllocError),
}

impl From<AllocError> for ReadRefused {
    ghost from_gives = { λ refused result. result ≡ NoMemory refused };

    fn from(refused: AllocError) -> ReadRefused {
        ReadRefused::NoMemory(refused)
    }
}

impl<T: Drop> From<AllocFailed<T>> for ReadRefused {
    ghost use Rattle.std.specs.Prelude.{alloc_error};

    ghost from_gives = { λ _ result. result ≡ NoMemory alloc_error };

    fn from(_: AllocFailed<T>) -> ReadRefused {
        ReadRefused::NoMemory(AllocError)
    }
}
