ghost use Rattle.std.specs.Prelude.{◌≡◌};
ghost use Rattle.netflux_codec.specs.declared.ask_refused.AskRefused.TheVariants.{NoMemory};

use std::alloc::AllocError;
use thiserror::Error;

/// Why a question was not read.
#[derive(Clone, Copy, Debug, PartialEq, Eq, Error)]
pub enum AskRefused {
    /// The content is no question.
    #[error("the content is no question")]
    Invalid,
    /// No memory was left.
    #[error(transparent)]
    NoMemory(AllocError),
}

impl From<AllocError> for AskRefused {
    ghost from_gives = { λ refused result. result ≡ NoMemory refused };

    fn from(refused: AllocError) -> AskRefused {
        AskRefused::NoMemory(refused)
    }
}
