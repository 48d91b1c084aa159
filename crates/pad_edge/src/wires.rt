ghost use Rattle.std.specs.Prelude.{◌≡◌, List, ℕ};

use crate::wire::Wire;
use std::marker::Model;

/// Texts in order. Contracts see the list of their bytes.
#[derive(Debug, Drop)]
pub struct Wires {
    texts: Vec<Wire>,
}

impl Model for Wires {
    ghost Value = { List (List ℕ) };

    ghost view = { λ wires. wires.texts.items };
}

impl Wires {
    /// The texts of this vector, in its order. It only moves the vector.
    pub fn new(texts: Vec<Wire>) -> Wires
        ensures { result ≡ texts.items }
    {
        Wires { texts }
    }

    /// Lends the texts.
    pub fn as_slice(&self) -> &[Wire]
        ensures { result.now ≡ self.now }
    {
        self.texts.as_slice()
    }
}
