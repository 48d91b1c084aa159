ghost use Rattle.std.specs.Prelude.{◌≡◌, IfOk};
ghost use Rattle.serde_json.specs.View.{view};
ghost use Rattle.pad_json.specs.Data.{array_of};

use crate::digits::Channel;
use crate::since::Since;
use pad_edge::Wire;
use pad_json::name_value;
use serde_json::{Value, json};
use std::alloc::{AllocError, Global};

/// What the keeper is asked.
#[derive(Clone, Copy, Debug, PartialEq, Eq)]
pub enum Ask {
    /// The entries of a channel, from a stated one on.
    History(Channel, Since),
    /// The entries of a channel with their moments, from the one of this index on.
    At(Channel, u32),
}

impl Ask {
    ghost use Rattle.netflux_codec.specs.Ask.{Asks, HasSmallIndex, IsAsk, ask_elements, ask_text};

    /// The compact text of the question.
    #[tactic(auto, using(crate::proofs::Spelled::ask_spelled), unfolding(crate::specs::Ask::ask_text))]
    pub fn text(&self, alloc: Global) -> Result<Wire, AllocError>
        requires { HasSmallIndex self.now }
        ensures written { IfOk result (λ wire. wire ≡ ask_text self.now) }
        ensures reads { IfOk result (λ wire. Asks wire self.now) }
    {
        let value = self.value(alloc)?;
        Ok(Wire::new(value.to_string(alloc)?))
    }

    /// The value that the text spells.
    fn value(&self, alloc: Global) -> Result<Value, AllocError>
        requires { HasSmallIndex self.now }
        ensures value { IfOk result (λ value. view value ≡ array_of (ask_elements self.now)) }
        ensures typed { IfOk result (λ _. IsAsk self.now) }
    {
        match self {
            Ask::History(channel, Since::Default) => {
                json!(in alloc; ["GET_HISTORY", channel.as_str()])
            }
            Ask::History(channel, Since::Known(key)) => {
                let key = name_value(alloc, key)?;
                json!(in alloc; ["GET_HISTORY", channel.as_str(), key])
            }
            Ask::History(channel, Since::All) => {
                json!(in alloc; ["GET_FULL_HISTORY", channel.as_str()])
            }
            Ask::At(channel, index) =>
                json!(in alloc; ["GET_HISTORY_AT", channel.as_str(), *index]),
        }
    }
}
