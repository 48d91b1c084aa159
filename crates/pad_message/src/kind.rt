ghost use Rattle.std.specs.Prelude.{◌≡◌, ◌↔◌, [], ◌∷◌, IsTrue, MatchOption};
ghost use Rattle.pad_json.specs.Data.{whole};
ghost use Rattle.pad_message.specs.Data.{interval_data, kind_number};
ghost use Rattle.pad_message.specs.Kind.{IsInterval, is_checkpoint};

/// The shortest interval of a checkpoint, in messages.
pub const SHORTEST_INTERVAL: u16 = 10;

/// The longest interval of a checkpoint, in messages.
pub const LONGEST_INTERVAL: u16 = 1000;

/// The interval, in messages, of a checkpoint whose content names none.
pub const USUAL_INTERVAL: u16 = 50;

/// What a message is.
#[derive(Clone, Copy, Debug, PartialEq, Eq)]
pub enum Kind {
    /// An edit of the text of its parent.
    Patch,
    /// The whole text of its parent once more, and after how many messages the next checkpoint may come.
    Checkpoint(u16),
}

impl Kind {
    /// Whether it is a checkpoint.
    pub fn is_checkpoint(self) -> bool
        ensures { result ≡ is_checkpoint self }
    {
        match self {
            Kind::Patch => false,
            Kind::Checkpoint(_) => true,
        }
    }

    /// The number that stands for the kind in a content.
    pub(crate) fn number(self) -> u32
        ensures { result ≡ kind_number self }
    {
        match self {
            Kind::Patch => 2,
            Kind::Checkpoint(_) => 4,
        }
    }

    /// The interval that a compact text names. There is none of a patch, and of a checkpoint with the usual one.
    pub(crate) fn written_interval(self) -> Option<u16>
        ensures { MatchOption result (interval_data self ≡ []) (λ interval. interval_data self ≡ whole interval ∷ []) }
    {
        match self {
            Kind::Checkpoint(interval) if interval != USUAL_INTERVAL => Some(interval),
            _ => None,
        }
    }
}

/// Whether a checkpoint may have this interval.
pub fn is_interval(messages: u16) -> bool
    ensures { IsTrue result ↔ IsInterval messages }
{
    SHORTEST_INTERVAL <= messages && messages <= LONGEST_INTERVAL
}
