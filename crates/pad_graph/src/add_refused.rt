ghost use Rattle.std.specs.Prelude.{◌≡◌};
ghost use Rattle.pad_graph.specs.declared.add_refused.AddRefused.TheVariants.{NoMemory};

use std::alloc::AllocError;
use thiserror::Error;

/// Why a message was not added.
#[derive(Clone, Copy, Debug, PartialEq, Eq, Error)]
pub enum AddRefused {
    /// The graph knows as many names as it may.
    #[error("too many names are known")]
    Full,
    /// Memory ran out.
    #[error("out of memory")]
    NoMemory(AllocError),
}

impl From<AllocError> for AddRefused {
    ghost from_gives = { λ error refused. refused ≡ NoMemory error };

    fn from(error: AllocError) -> AddRefused {
        AddRefused::NoMemory(error)
    }
}
