use crate::linkings::Linkings;

/// What became of a message that was added.
#[derive(Debug, Drop)]
pub enum Added {
    /// Its name is the base's or was added before.
    Known,
    /// It waits for its parent.
    Waiting,
    /// These became linked through the root, by height and then by name.
    Linked(Linkings),
    /// These became linked, and not through the root, by height and then by name.
    Below(Linkings),
}
