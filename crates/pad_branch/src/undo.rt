use crate::tip::Tip;
use pad_message::Kind;
use pad_patch::Patch;

/// How one message of a branch is taken back.
#[derive(Debug, Drop)]
pub struct Undo {
    /// The message's kind.
    pub kind: Kind,
    /// The inverse of its patch on the text before it.
    pub inverse: Patch,
    /// What stands after it. Its name is the message's.
    pub after: Tip,
}
