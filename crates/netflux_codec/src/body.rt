use crate::digits::Channel;
use pad_edge::Wire;

/// What a request asks.
#[derive(Debug, Drop)]
pub enum Body {
    /// To join a channel.
    Join(Channel),
    /// To leave a channel, and why.
    Leave(Channel, Wire),
    /// To send a content to a channel, to the keeper or to a connection.
    Msg(Wire, Wire),
    /// To be answered.
    Ping,
}
