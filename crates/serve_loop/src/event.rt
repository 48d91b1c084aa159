use pad_edge::Wire;

/// What a machine hears of a port: what it gives, without its pauses and its end.
#[derive(Debug, Drop)]
pub enum Event {
    /// A connection was opened.
    Opened(u64),
    /// A text came over a connection.
    Text(u64, Wire),
    /// A connection was closed.
    Closed(u64),
}
