use pad_text::Name;

/// A message that became linked, by its height and name. The lower one comes first, and of two at one height the lesser name.
#[derive(Clone, Copy, Debug, PartialEq, Eq, PartialOrd, Ord)]
pub struct Linking {
    /// One more than its parent's height.
    pub height: u64,
    /// Its name.
    pub name: Name,
}
