ghost use Rattle.std.specs.Prelude.{◌≡◌, ◌↔◌};
ghost use Rattle.pad_seat.specs.declared.seat_refused.SeatRefused.TheVariants.{Full, NoMemory};
ghost use Rattle.pad_client.specs.declared.hear_refused.HearRefused.TheVariants as hear;

use pad_client::HearRefused;
use std::alloc::AllocError;
use thiserror::Error;

/// Why a call ends without a line for it.
#[derive(Clone, Copy, Debug, PartialEq, Eq, Error)]
pub enum SeatRefused {
    /// The client's chain would know more names than it may. The client stands for what it stood for.
    #[error("too many names are known")]
    Full,
    /// Memory ran out. The seat may only be dropped.
    #[error("out of memory")]
    NoMemory(AllocError),
}

impl From<AllocError> for SeatRefused {
    ghost from_gives = { λ error refused. refused ≡ NoMemory error };

    fn from(error: AllocError) -> SeatRefused {
        SeatRefused::NoMemory(error)
    }
}

impl From<HearRefused> for SeatRefused {
    ghost from_gives = { λ error refused. (refused ≡ Full) ↔ (error ≡ hear.Full) };

    fn from(error: HearRefused) -> SeatRefused {
        match error {
            HearRefused::Full => SeatRefused::Full,
            HearRefused::NoMemory(error) => SeatRefused::NoMemory(error),
        }
    }
}
