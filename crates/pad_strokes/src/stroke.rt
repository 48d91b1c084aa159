use pad_patch::Operation;

/// An edit of the shown text by the user, with what takes it back.
#[derive(Debug, Drop)]
pub struct Stroke {
    /// The number of the edit.
    pub number: u64,
    /// The operation that takes the edit back, on the shown text after it.
    pub back: Operation,
}
