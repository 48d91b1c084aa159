ghost use Rattle.std.specs.Prelude.{◌≡◌, if◌then◌else◌};
ghost use Rattle.client_script.specs.Hearing.{hearing_after, is_error_of, is_waiting};

use pad_client::Heard;

/// What a line still has to hear.
#[derive(Clone, Copy, Debug, PartialEq, Eq)]
pub enum Hearing {
    /// Nothing.
    Nothing,
    /// That the client has joined, or the error of this number.
    Join(u32),
    /// The acknowledgement or the error of this number.
    Leave(u32),
    /// The end of a history, that the keeper does not know its key, or the error of this number.
    History(u32),
    /// The end of a repair's history, or the error of this number.
    Repair(u32),
    /// Texts until no message of the outbox awaits its answer.
    Settle,
    /// So many texts.
    Texts(u32),
}

/// Nothing is left to be heard once it has ended, and all that was before it has.
fn unless(ended: bool, before: Hearing) -> Hearing
    ensures { result ≡ (if ended then Hearing.Nothing else before) }
{
    if ended { Hearing::Nothing } else { before }
}

/// Whether the error of this number was heard.
fn is_error_of(number: u32, heard: &Heard) -> bool
    ensures { result ≡ is_error_of number heard.now }
{
    match heard {
        Heard::Error(other, _) => *other == number,
        _ => false,
    }
}

impl Hearing {
    /// What is still to be heard after this was.
    pub fn after(self, heard: &Heard) -> Hearing
        ensures { result ≡ hearing_after self heard.now }
    {
        match self {
            Hearing::Nothing => Hearing::Nothing,
            Hearing::Settle => Hearing::Settle,
            Hearing::Texts(count) => Hearing::Texts(count.saturating_sub(1)),
            Hearing::Join(number) => match heard {
                Heard::Joined => Hearing::Nothing,
                _ => unless(is_error_of(number, heard), self),
            },
            Hearing::Leave(number) => match heard {
                Heard::Acked(other) => unless(*other == number, self),
                _ => unless(is_error_of(number, heard), self),
            },
            Hearing::History(number) => match heard {
                Heard::End(_) | Heard::Unknown => Hearing::Nothing,
                _ => unless(is_error_of(number, heard), self),
            },
            Hearing::Repair(number) => match heard {
                Heard::Repaired(_) => Hearing::Nothing,
                _ => unless(is_error_of(number, heard), self),
            },
        }
    }

    /// Whether a text is still to be heard, if this says whether a message of the outbox awaits its answer.
    pub fn waits(self, awaits: bool) -> bool
        ensures { result ≡ is_waiting self awaits }
    {
        match self {
            Hearing::Nothing => false,
            Hearing::Settle => awaits,
            Hearing::Texts(count) => count > 0,
            _ => true,
        }
    }
}
