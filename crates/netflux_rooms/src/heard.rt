use netflux_codec::{Ask, Channel};
use pad_edge::Wire;
use serve_loop::Out;

/// What comes of an event: outputs, or something for the keeper to do first.
#[derive(Drop)]
pub enum Heard {
    /// These outputs, and nothing else.
    Done(Vec<Out>),
    /// This connection, by the request of this number, stores a content in a channel.
    Store(u64, u32, Channel, Wire),
    /// This connection, by the request of this number, asks the keeper.
    Ask(u64, u32, Ask),
}
