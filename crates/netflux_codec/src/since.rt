use pad_text::Name;

/// From where on a history is asked.
#[derive(Clone, Copy, Debug, PartialEq, Eq)]
pub enum Since {
    /// From the last but one checkpoint on, or from the start where there are fewer than two.
    Default,
    /// From the first entry with this key on.
    Known(Name),
    /// From the start.
    All,
}
