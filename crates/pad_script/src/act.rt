ghost use Rattle.std.specs.Prelude.{◌≡◌};

use netflux_codec::{Channel, Since};
use pad_patch::Operation;

/// What a line of a client script commands.
#[derive(Debug, Drop)]
pub enum Act {
    /// `join CHANNEL`: to join a channel.
    Join(Channel),
    /// `leave`: to leave the channel.
    Leave,
    /// `history`, `history NAME` or `history all`: to ask for a history, from a stated entry on.
    History(Since),
    /// `edit OFFSET REMOVE STRING`: to edit the shown text. Offset and length count UTF-16 units.
    Edit(Operation),
    /// `sync`: to send the unsent work.
    Sync,
    /// `resend`: to send again what was not acknowledged.
    Resend,
    /// `settle`: to hear until no message that was sent awaits its answer.
    Settle,
    /// `hear N`: to hear so many texts.
    Hear(u32),
    /// `repair`: to repair the chain from the whole history.
    Repair,
    /// `interval N`: to set after how many messages the next but one checkpoint may come.
    Interval(u16),
    /// `show`: to write the report.
    Show,
}

impl Act {
    ghost use Rattle.pad_script.specs.Requests.{makes_requests};

    /// Whether the command makes the client send requests.
    pub fn makes_requests(&self) -> bool
        ensures { result ≡ makes_requests self.now }
    {
        match self {
            Act::Join(_) | Act::Leave | Act::History(_) | Act::Sync | Act::Resend | Act::Repair =>
                true,
            Act::Edit(_) | Act::Settle | Act::Hear(_) | Act::Interval(_) | Act::Show => false,
        }
    }
}
