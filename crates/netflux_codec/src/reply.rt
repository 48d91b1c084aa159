ghost use Rattle.std.specs.Prelude.{◌≡◌, IfOk};
ghost use Rattle.serde_json.specs.View.{view};
ghost use Rattle.pad_json.specs.Data.{array_of};

use crate::digits::{Channel, Id, KeeperId};
use crate::reply_writing::{
    entry_value, error_value, gone_value, history_end_value, history_unknown_value, history_value,
    member_value, msg_value,
};
use crate::who::Who;
use crate::word::Word;
use pad_edge::Wire;
use pad_text::Name;
use serde_json::{Value, json};
use std::alloc::{AllocError, Global};

/// The greatest index and the greatest total of a history.
pub const MOST_ENTRIES: u32 = 1_048_576;

/// What the hub says to a client.
#[derive(Debug, Drop)]
pub enum Reply {
    /// The identity of the connection.
    Ident(Id),
    /// The channel was joined by the request of this number.
    Joined(u32, Channel),
    /// Somebody is in the channel.
    Member(Who, Channel),
    /// A connection left the channel, and why.
    Gone(Id, Channel, Wire),
    /// A connection sent a content to a channel or to this connection.
    Msg(Id, Wire, Wire),
    /// The request of this number was done.
    Ack(u32),
    /// The request of this number was not done, why, and the channel or the target that it named.
    Error(u32, Word, Wire),
    /// An entry of a channel's log: its index, its sender and its content.
    History(KeeperId, Channel, u32, Id, Wire),
    /// An entry of a channel's log with the moment at which it was stored: its index, the moment, its sender and its content.
    Entry(KeeperId, Channel, u32, u64, Id, Wire),
    /// The end of a history, and how many entries the log has.
    HistoryEnd(KeeperId, Channel, u32),
    /// No entry of the log has this key.
    HistoryUnknown(KeeperId, Channel, Name),
}

impl Reply {
    ghost use Rattle.netflux_codec.specs.Reply.{HasSmallCounts, IsReply, Replies, reply_elements, reply_text};

    /// The compact text of the reply.
    #[tactic(auto, using(crate::proofs::Spelled::reply_spelled), unfolding(crate::specs::Reply::reply_text))]
    pub fn text(&self, alloc: Global) -> Result<Wire, AllocError>
        requires { HasSmallCounts self.now }
        ensures written { IfOk result (λ wire. wire ≡ reply_text self.now) }
        ensures reads { IfOk result (λ wire. Replies wire self.now) }
    {
        let value = self.value(alloc)?;
        Ok(Wire::new(value.to_string(alloc)?))
    }

    /// The value that the text spells.
    fn value(&self, alloc: Global) -> Result<Value, AllocError>
        requires { HasSmallCounts self.now }
        ensures value { IfOk result (λ value. view value ≡ array_of (reply_elements self.now)) }
        ensures typed { IfOk result (λ _. IsReply self.now) }
    {
        match self {
            Reply::Ident(id) => json!(in alloc; [0, "", "IDENT", id.as_str()]),
            Reply::Joined(seq, channel) => json!(in alloc; [*seq, "JACK", channel.as_str()]),
            Reply::Member(who, channel) => member_value(alloc, who, channel),
            Reply::Gone(id, channel, reason) => gone_value(alloc, id, channel, reason),
            Reply::Msg(id, target, content) => msg_value(alloc, id, target, content),
            Reply::Ack(seq) => json!(in alloc; [*seq, "ACK"]),
            Reply::Error(seq, word, about) => error_value(alloc, *seq, *word, about),
            Reply::History(keeper, channel, index, sender, content) => history_value(
                alloc, keeper, channel, *index, sender, content,
            ),
            Reply::Entry(keeper, channel, index, moment, sender, content) => entry_value(
                alloc, keeper, channel, *index, *moment, sender, content,
            ),
            Reply::HistoryEnd(keeper, channel, total) => history_end_value(
                alloc, keeper, channel, *total,
            ),
            Reply::HistoryUnknown(keeper, channel, key) => history_unknown_value(
                alloc, keeper, channel, key,
            ),
        }
    }
}
