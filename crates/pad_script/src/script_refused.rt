ghost use Rattle.std.specs.Prelude.{◌≡◌};
ghost use Rattle.pad_script.specs.declared.script_refused.ScriptRefused.TheVariants.{NoMemory};

use std::alloc::{AllocError, AllocFailed};
use thiserror::Error;

/// Why a script was not read.
#[derive(Clone, Copy, Debug, PartialEq, Eq, Error)]
pub enum ScriptRefused {
    /// This line, counted from 1, is the first outside the grammar.
    #[error("line {0} is outside the grammar")]
    BadLine(u64),
    /// No memory was left.
    #[error(transparent)]
    NoMemory(AllocError),
}

impl From<AllocError> for ScriptRefused {
    ghost from_gives = { λ refused result. result ≡ NoMemory refused };

    fn from(refused: AllocError) -> ScriptRefused {
        ScriptRefused::NoMemory(refused)
    }
}
