use pad_text::Name;

/// The message that was added last, and the counts before it.
#[derive(Clone, Copy, Debug)]
pub(crate) struct Last {
    /// Its name.
    pub name: Name,
    /// How many messages waited.
    pub waiting: u64,
    /// How many were kept.
    pub kept: u64,
}
