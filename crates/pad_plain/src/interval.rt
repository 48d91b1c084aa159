//! The interval between checkpoints.

ghost use Rattle.std.specs.Prelude.{◌≡◌};
ghost use Rattle.pad_model.specs.Sound.{interval_of};

use pad_message::{Kind, Message};

/// The interval in force after the message.
pub(crate) fn interval_after(message: &Message, before: u16) -> u16
    ensures { result ≡ interval_of message.now.kind before }
{
    match message.kind {
        Kind::Patch => before,
        Kind::Checkpoint(interval) => interval,
    }
}
