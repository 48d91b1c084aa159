ghost use Rattle.std.specs.Prelude.{◌≡◌, IfOk, Ok};
ghost use Rattle.pad_edge.specs.Port.{is_port_end};

use crate::wire::Wire;
use std::alloc::AllocError;

/// What a port gives. Connections have numbers.
#[derive(Debug, Drop)]
pub enum PortEvent {
    /// A connection was opened, under a number that no other one had before.
    Opened(u64),
    /// A text came over a connection.
    Text(u64, Wire),
    /// A connection was closed by its other end, or was lost.
    Closed(u64),
    /// Nothing came for a while.
    Idle,
    /// The port ended. Nothing more is expected of it.
    Ended,
}

impl PortEvent {
    /// The same event once more.
    pub fn copy(&self) -> Result<PortEvent, AllocError>
        ensures { IfOk result (λ event. event ≡ self.now) }
    {
        match self {
            PortEvent::Opened(connection) => Ok(PortEvent::Opened(*connection)),
            PortEvent::Text(connection, text) => Ok(PortEvent::Text(*connection, text.copy()?)),
            PortEvent::Closed(connection) => Ok(PortEvent::Closed(*connection)),
            PortEvent::Idle => Ok(PortEvent::Idle),
            PortEvent::Ended => Ok(PortEvent::Ended),
        }
    }

    /// Whether the port ended.
    pub fn is_end(&self) -> bool
        ensures { result ≡ is_port_end (Ok self.now) }
    {
        match self {
            PortEvent::Ended => true,
            _ => false,
        }
    }
}
