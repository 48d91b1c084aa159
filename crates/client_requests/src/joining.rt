use netflux_codec::Channel;

/// A channel that is being joined.
#[derive(Clone, Copy, Debug, PartialEq, Eq)]
pub struct Joining {
    /// The number of the request.
    pub number: u32,
    /// The channel.
    pub channel: Channel,
}
