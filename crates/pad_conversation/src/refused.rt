ghost use Rattle.std.specs.Prelude.{◌≡◌};
ghost use Rattle.pad_conversation.specs.declared.refused.SpeakerRefused.TheVariants as speaker;
ghost use Rattle.pad_conversation.specs.Refused.{refusal_of};

use std::alloc::AllocError;
use thiserror::Error;

/// Why a speaker did not carry out a command, or did not hear a text.
#[derive(Clone, Copy, Debug, PartialEq, Eq, Error)]
pub enum SpeakerRefused {
    /// It would hold more than it may.
    #[error("the speaker is full")]
    Full,
    /// Memory ran out. The speaker may only be dropped.
    #[error("out of memory")]
    NoMemory,
}

impl From<AllocError> for SpeakerRefused {
    ghost from_gives = { λ error made. made ≡ speaker.NoMemory };

    fn from(_error: AllocError) -> SpeakerRefused {
        SpeakerRefused::NoMemory
    }
}

/// Why a conversation ended early.
#[derive(Clone, Copy, Debug, PartialEq, Eq, Error)]
pub enum ConversationRefused {
    /// A call of the link failed.
    #[error("the link failed")]
    Link,
    /// The link ended while a command still had to hear a text.
    #[error("the link ended")]
    Ended,
    /// A write failed.
    #[error("a write failed")]
    Write,
    /// The speaker would hold more than it may.
    #[error("the speaker is full")]
    Full,
    /// Memory ran out.
    #[error("out of memory")]
    NoMemory,
}

impl From<SpeakerRefused> for ConversationRefused {
    ghost from_gives = { λ error made. made ≡ refusal_of error };

    fn from(error: SpeakerRefused) -> ConversationRefused {
        match error {
            SpeakerRefused::Full => ConversationRefused::Full,
            SpeakerRefused::NoMemory => ConversationRefused::NoMemory,
        }
    }
}
