use crate::place::Place;

/// What cutting a path needs of a message on it.
#[derive(Clone, Copy, Debug, PartialEq, Eq)]
pub struct PathMark {
    /// Where the path up to the message ends.
    pub place: Place,
    /// Whether the message is a checkpoint.
    pub checkpoint: bool,
}
