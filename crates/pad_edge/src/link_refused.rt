ghost use Rattle.std.specs.Prelude.{◌≡◌};
ghost use Rattle.pad_edge.specs.declared.link_refused.LinkRefused.TheVariants as refused;

use std::alloc::{AllocError, AllocFailed};
use thiserror::Error;

/// Why a call of a link or a port did not do what it was asked for.
#[derive(Clone, Copy, Debug, PartialEq, Eq, Error)]
pub enum LinkRefused {
    /// The call to the outside failed.
    #[error("a call to the outside failed")]
    Failed,
    /// There was not enough memory. Nothing was given or sent, and no count of failures or ends rose.
    #[error("there was not enough memory")]
    NoMemory,
}

impl From<AllocError> for LinkRefused {
    ghost from_gives = { λ error made. made ≡ refused.NoMemory };

    fn from(_error: AllocError) -> LinkRefused {
        LinkRefused::NoMemory
    }
}

impl<T: Drop> From<AllocFailed<T>> for LinkRefused {
    ghost from_gives = { λ error made. made ≡ refused.NoMemory };

    fn from(_error: AllocFailed<T>) -> LinkRefused {
        LinkRefused::NoMemory
    }
}
