ghost use Rattle.std.specs.Prelude.{◌≡◌, List, []};
ghost use Rattle.pad_branch.specs.declared.moved.Move.{Move};

use pad_branch::Move;
use std::alloc::Global;
use std::marker::Model;

/// Messages that left the chosen path, or that came onto it. Contracts see the list.
#[derive(Debug, Drop)]
pub struct Moves {
    items: Vec<Move>,
}

impl Model for Moves {
    ghost Value = { List Move };

    ghost view = { λ moves. moves.items.items };
}

impl Moves {
    /// The moves of this vector, in its order. It only moves the vector.
    pub fn new(items: Vec<Move>) -> Moves
        ensures { result ≡ items.items }
    {
        Moves { items }
    }

    /// Lends the moves.
    pub fn as_slice(&self) -> &[Move]
        ensures { result.now ≡ self.now }
    {
        self.items.as_slice()
    }

    /// The moves in a vector, in their order. It only moves the vector.
    pub fn into_vec(self) -> Vec<Move>
        ensures { result.items ≡ self }
    {
        self.items
    }
}

/// How the chosen path changed. Both lists are empty where it stayed.
#[derive(Debug, Drop)]
pub struct Moved {
    /// The messages that left it, the newest first, each with the inverse of its patch.
    pub reverted: Moves,
    /// The messages that came onto it, the oldest first, each with its patch.
    pub applied: Moves,
}

impl Moved {
    /// The chain stayed.
    pub(crate) fn none(alloc: Global) -> Moved
        ensures reverted { result.reverted ≡ [] }
        ensures applied { result.applied ≡ [] }
    {
        Moved {
            reverted: Moves::new(Vec::new(alloc)),
            applied: Moves::new(Vec::new(alloc)),
        }
    }
}
