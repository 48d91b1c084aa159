ghost use Rattle.std.specs.Prelude.{◌≡◌};
ghost use Rattle.pad_top.specs.declared.refused.ReplayRefused.TheVariants.{NoMemory};

use crate::status::Status;
use pad_chain::ReceiveRefused;
use std::alloc::AllocError;
use thiserror::Error;

/// Why a replay has no report.
#[derive(Debug, Drop, Error)]
pub(crate) enum ReplayRefused {
    /// A read of the input failed.
    #[error("a read failed")]
    ReadFault,
    /// The input has more bytes, or more different names, than a run takes.
    #[error("the input is past a limit")]
    Limit,
    /// There was not enough memory.
    #[error(transparent)]
    NoMemory(AllocError),
}

impl From<AllocError> for ReplayRefused {
    ghost from_gives = { λ refused result. result ≡ NoMemory refused };

    fn from(refused: AllocError) -> ReplayRefused {
        ReplayRefused::NoMemory(refused)
    }
}

impl From<ReceiveRefused> for ReplayRefused {
    ghost use Rattle.pad_top.specs.Inside.Refusal.{refusal_of};

    ghost from_gives = { λ error refused. refused ≡ refusal_of error };

    fn from(error: ReceiveRefused) -> ReplayRefused {
        match error {
            ReceiveRefused::Full => ReplayRefused::Limit,
            ReceiveRefused::NoMemory(error) => ReplayRefused::NoMemory(error),
        }
    }
}

impl ReplayRefused {
    ghost use Rattle.pad_top.specs.Inside.Refusal.{status_of};

    /// The status that a run ends with then.
    pub(crate) fn status(&self) -> Status
        ensures { result ≡ status_of self.now }
    {
        match self {
            ReplayRefused::ReadFault => Status::ReadFault,
            ReplayRefused::Limit => Status::Limit,
            ReplayRefused::NoMemory(_) => Status::NoMemory,
        }
    }
}
