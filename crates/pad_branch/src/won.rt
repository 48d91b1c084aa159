use crate::undo::Undo;
use pad_patch::UnitStore;

/// A path that was tested and is sound.
#[derive(Drop)]
pub struct Won<S: UnitStore> {
    /// How many messages of the best branch above the root stay.
    pub keep: usize,
    /// How to take back the messages above those that stay, the oldest first.
    pub undos: Vec<Undo>,
    /// The text at the end.
    pub text: S,
}
