use netflux_codec::Word;
use pad_chain::Moved;

/// What a client has heard: the first of these that a text is.
#[derive(Debug, Drop)]
pub enum Heard {
    /// The text is no reply.
    Strange,
    /// The client's identity on this connection.
    Ident,
    /// The request of this number was not done, and why. Nothing awaits its answer under this number any more.
    Error(u32, Word),
    /// The client has joined the channel.
    Joined,
    /// The acknowledgement of a leave, or of a message of the outbox, that awaited its answer under this number.
    Acked(u32),
    /// The first entry of a default history. It became the base of the chain.
    Adopted,
    /// A content for the channel that spells no message.
    Unreadable,
    /// A content for the channel, and how the best chain changed. While a repair runs nothing changes.
    Content(Moved),
    /// The end of a repair's history. False if the work was emptied: the old best message is neither the new base nor on a path of it.
    Repaired(bool),
    /// The end of a history that was asked by no repair, and how many entries the channel's log has.
    End(u64),
    /// The keeper does not know the key from which a history was asked, by no repair.
    Unknown,
    /// Any other reply.
    Ignored,
}
