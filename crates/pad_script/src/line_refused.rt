ghost use Rattle.std.specs.Prelude.{◌≡◌};
ghost use Rattle.pad_script.specs.declared.line_refused.LineRefused.TheVariants.{NoMemory};

use std::alloc::AllocError;
use thiserror::Error;

/// Why a line was not read.
#[derive(Clone, Copy, Debug, PartialEq, Eq, Error)]
pub enum LineRefused {
    /// The line is outside the grammar.
    #[error("the line is outside the grammar")]
    Outside,
    /// No memory was left.
    #[error(transparent)]
    NoMemory(AllocError),
}

impl From<AllocError> for LineRefused {
    ghost from_gives = { λ refused result. result ≡ NoMemory refused };

    fn from(refused: AllocError) -> LineRefused {
        LineRefused::NoMemory(refused)
    }
}
