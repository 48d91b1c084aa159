ghost use Rattle.std.specs.Prelude.{◌≡◌};
ghost use Rattle.gated_log.specs.declared.refused.LoadRefused.TheVariants.{Store as LoadStore, Damaged, NoMemory as LoadNoMemory};
ghost use Rattle.gated_log.specs.declared.refused.PayloadRefused.TheVariants.{Store as PayloadStore, NoMemory as PayloadNoMemory};

use log_format::Damage;
use pad_edge::Failed;
use std::alloc::AllocError;
use thiserror::Error;

/// Why a log was not loaded.
#[derive(Clone, Copy, Debug, PartialEq, Eq, Error)]
pub enum LoadRefused {
    /// A call of the volume failed.
    #[error("the volume failed")]
    Store,
    /// The file is damaged.
    #[error("the log is damaged: {0}")]
    Damaged(Damage),
    /// Memory ran out.
    #[error("out of memory")]
    NoMemory(AllocError),
}

impl From<Failed> for LoadRefused {
    ghost from_gives = { λ _ refused. refused ≡ LoadStore };

    fn from(_failed: Failed) -> LoadRefused {
        LoadRefused::Store
    }
}

impl From<Damage> for LoadRefused {
    ghost from_gives = { λ damage refused. refused ≡ Damaged damage };

    fn from(damage: Damage) -> LoadRefused {
        LoadRefused::Damaged(damage)
    }
}

impl From<AllocError> for LoadRefused {
    ghost from_gives = { λ error refused. refused ≡ LoadNoMemory error };

    fn from(error: AllocError) -> LoadRefused {
        LoadRefused::NoMemory(error)
    }
}

/// Why a payload was not appended, or a log not primed.
#[derive(Clone, Copy, Debug, PartialEq, Eq, Error)]
pub enum AppendRefused {
    /// The log has no room for the entry.
    #[error("the log is full")]
    Full,
    /// A call of the volume failed.
    #[error("the volume failed")]
    Store,
}

/// Why a payload was not read.
#[derive(Clone, Copy, Debug, PartialEq, Eq, Error)]
pub enum PayloadRefused {
    /// A call of the volume failed.
    #[error("the volume failed")]
    Store,
    /// Memory ran out.
    #[error("out of memory")]
    NoMemory(AllocError),
}

impl From<Failed> for PayloadRefused {
    ghost from_gives = { λ _ refused. refused ≡ PayloadStore };

    fn from(_failed: Failed) -> PayloadRefused {
        PayloadRefused::Store
    }
}

impl From<AllocError> for PayloadRefused {
    ghost from_gives = { λ error refused. refused ≡ PayloadNoMemory error };

    fn from(error: AllocError) -> PayloadRefused {
        PayloadRefused::NoMemory(error)
    }
}
