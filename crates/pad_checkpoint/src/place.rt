use pad_text::Name;

/// Where a path ends.
#[derive(Clone, Copy, Debug, PartialEq, Eq)]
pub struct Place {
    /// The name of its last message, or the base's.
    pub name: Name,
    /// How many messages it has.
    pub height: u64,
}
