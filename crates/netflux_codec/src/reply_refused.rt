ghost use Rattle.std.specs.Prelude.{◌≡◌};
ghost use Rattle.netflux_codec.specs.declared.reply_refused.ReplyRefused.TheVariants.{NoMemory};

use std::alloc::AllocError;
use thiserror::Error;

/// Why a reply was not read.
#[derive(Clone, Copy, Debug, PartialEq, Eq, Error)]
pub enum ReplyRefused {
    /// The text is no reply.
    #[error("the text is no reply")]
    Strange,
    /// No memory was left.
    #[error(transparent)]
    NoMemory(AllocError),
}

impl From<AllocError> for ReplyRefused {
    ghost from_gives = { λ refused result. result ≡ NoMemory refused };

    fn from(refused: AllocError) -> ReplyRefused {
        ReplyRefused::NoMemory(refused)
    }
}
