ghost use Rattle.std.specs.Prelude.{◌≡◌};
ghost use Rattle.pad_client.specs.Inside.Refused.{is_edit_refused};

use std::alloc::AllocError;
use thiserror::Error;

/// Why an edit is refused. The first cause in this order is told, and nothing is changed.
#[derive(Clone, Copy, Debug, PartialEq, Eq, Error)]
pub enum EditRefused {
    /// A repair runs.
    #[error("a repair runs")]
    Repairing,
    /// The operation ends after the shown text.
    #[error("the edit ends after the text")]
    Range,
    /// The operation starts or ends between the two units of a surrogate pair of the shown text.
    #[error("the edit cuts a surrogate pair")]
    Pair,
    /// The shown text would be longer than 262,144 units and longer than it is.
    #[error("the text is too long after the edit")]
    TooLong,
    /// Memory ran out.
    #[error("out of memory")]
    NoMemory(AllocError),
}

impl From<pad_stroke::EditRefused> for EditRefused {
    ghost from_gives = { λ cause refused. refused ≡ is_edit_refused cause };

    fn from(cause: pad_stroke::EditRefused) -> EditRefused {
        match cause {
            pad_stroke::EditRefused::Range => EditRefused::Range,
            pad_stroke::EditRefused::Pair => EditRefused::Pair,
            pad_stroke::EditRefused::TooLong => EditRefused::TooLong,
            pad_stroke::EditRefused::NoMemory(error) => EditRefused::NoMemory(error),
        }
    }
}
