use crate::wire::Wire;

/// What went out of a port.
#[derive(Debug, Drop)]
pub enum Sent {
    /// A text was sent over a connection.
    Text(u64, Wire),
    /// A connection was hung up.
    HungUp(u64),
}
