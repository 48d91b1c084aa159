use crate::wire::Wire;

/// What comes over a link.
#[derive(Debug, Drop)]
pub enum Arrival {
    /// A text.
    Text(Wire),
    /// The link ended. Nothing more is expected of it.
    Ended,
}
