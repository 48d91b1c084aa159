use pad_message::USUAL_INTERVAL;
use pad_text::{Name, Text, texts_are_kept_by_cuts};
use std::alloc::Global;

/// What a chain begins at, at height 0. It is no message of the chain.
#[derive(Debug, Drop)]
pub struct Base {
    /// The name that the first message of a chain gives as its parent.
    pub name: Name,
    /// The text that the first message of a chain meets.
    pub text: Text,
    /// After how many messages the first checkpoint of a chain may come. It is from 10 to 1,000 in a base that `first` or a
    /// message that was read gives; the type holds any number.
    pub interval: u16,
}

impl Base {
    ghost use Rattle.std.specs.Prelude.{◌≡◌};
    ghost use Rattle.pad_model.specs.Base.{first_base};

    /// The base that no message gives: sixty-four zeros as its name, the empty text, and the usual interval.
    pub fn first(alloc: Global) -> Base
        ensures { result ≡ first_base }
    {
        // By this law no units are a text.
        texts_are_kept_by_cuts();
        Base {
            name: Name::BASE,
            text: Text::from_units(Vec::new(alloc)),
            interval: USUAL_INTERVAL,
        }
    }
}
