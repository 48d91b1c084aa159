use pad_text::Name;

/// What stands at the end of a path, besides the text: what the next message there meets.
#[derive(Clone, Copy, Debug)]
pub struct Tip {
    /// The name of the last message, or the base's.
    pub name: Name,
    /// The document hash of the text.
    pub hash: Name,
    /// How many messages come after the last checkpoint, or after the base.
    pub since: u64,
    /// The interval in force, in messages.
    pub interval: u16,
}
