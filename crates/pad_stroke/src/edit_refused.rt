ghost use Rattle.std.specs.Prelude.{◌≡◌};
ghost use Rattle.pad_stroke.specs.declared.edit_refused.EditRefused.TheVariants.{NoMemory};

use std::alloc::AllocError;
use thiserror::Error;

/// Why an edit is refused. The first cause in this order is told, and nothing is changed.
#[derive(Debug, Drop, Error)]
pub enum EditRefused {
    /// The operation ends after the shown text.
    #[error("the edit ends after the text")]
    Range,
    /// The operation starts or ends between the two units of a surrogate pair of the shown text.
    #[error("the edit cuts a surrogate pair")]
    Pair,
    /// The shown text would be longer than 262,144 units and longer than it is.
    #[error("the text is too long after the edit")]
    TooLong,
    /// There is not enough memory.
    #[error(transparent)]
    NoMemory(AllocError),
}

impl From<AllocError> for EditRefused {
    ghost from_gives = { λ error refused. refused ≡ NoMemory error };

    fn from(error: AllocError) -> EditRefused {
        EditRefused::NoMemory(error)
    }
}
