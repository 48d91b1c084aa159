ghost use Rattle.std.specs.Prelude.{◌≡◌};

use crate::standing::Standing;
use pad_text::Name;

/// What a graph holds of a name that it knows.
#[derive(Clone, Copy, Debug)]
pub(crate) struct Node {
    /// The parent with which it was added; the base's own name for the base.
    pub parent: Name,
    /// How it stands.
    pub standing: Standing,
}

impl Node {
    ghost use Rattle.pad_graph.specs.Inside.Tables.{parent_told};

    /// The parent, where the name waits, or is linked and not the base.
    pub fn told_parent(&self) -> Option<Name>
        ensures { result ≡ parent_told self.now.standing self.now.parent }
    {
        match self.standing {
            Standing::Waiting => Some(self.parent),
            Standing::Linked(height) if height > 0 => Some(self.parent),
            _ => None,
        }
    }
}

/// What names become that are marked together.
#[derive(Clone, Copy, Debug)]
pub(crate) enum Mark {
    /// They wait.
    Waiting,
    /// They are linked at their heights.
    Linked,
    /// They are gone, with their heights.
    Gone,
}
