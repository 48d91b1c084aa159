ghost use Rattle.std.specs.Prelude.{◌≡◌};
ghost use Rattle.netflux_codec.specs.declared.request_refused.RequestRefused.TheVariants.{NoMemory};

use std::alloc::AllocError;
use thiserror::Error;

/// Why a request was not read.
#[derive(Clone, Copy, Debug, PartialEq, Eq, Error)]
pub enum RequestRefused {
    /// The text is no request, and has this number.
    #[error("the text is no request")]
    Invalid(u32),
    /// No memory was left.
    #[error(transparent)]
    NoMemory(AllocError),
}

impl From<AllocError> for RequestRefused {
    ghost from_gives = { λ refused result. result ≡ NoMemory refused };

    fn from(refused: AllocError) -> RequestRefused {
        RequestRefused::NoMemory(refused)
    }
}
