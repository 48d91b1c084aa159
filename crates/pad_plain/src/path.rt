use pad_text::Name;

/// The end of a path, as a report names it.
#[derive(Clone, Copy, Debug, PartialEq, Eq)]
pub struct Tip {
    /// The name of the last message, or the base's.
    pub name: Name,
    /// How many messages the path has.
    pub height: usize,
}

/// A path: its end, and the places of its messages among those received, the newest first.
#[derive(Debug, Drop)]
pub(crate) struct Path {
    pub tip: Tip,
    pub places: Vec<usize>,
}
