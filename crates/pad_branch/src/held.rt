use pad_message::Message;

/// A message that is kept or waits.
#[derive(Debug, Drop)]
pub struct Held {
    /// The message.
    pub message: Message,
    /// Whether it was found out that no path ends in it: it is not sound, or it hangs on one that is not.
    pub pathless: bool,
}
