ghost use Rattle.std.specs.Prelude.{◌≡◌, ◌↔◌, [], length, IsTrue};

use crate::origin::Origin;
use std::marker::Model;

/// Origins in order. Contracts see the list.
#[derive(Debug, Drop)]
pub struct Origins {
    items: Vec<Origin>,
}

impl Model for Origins {
    ghost use Rattle.std.specs.Prelude.{List};
    ghost use Rattle.pad_merge.specs.declared.origin.Origin.{Origin};

    ghost Value = { List Origin };

    ghost view = { λ origins. origins.items.items };
}

impl Origins {
    /// The origins of this vector, in its order. It only moves the vector.
    pub fn new(items: Vec<Origin>) -> Origins
        ensures { result ≡ items.items }
    {
        Origins { items }
    }

    /// How many there are.
    pub fn len(&self) -> usize
        ensures { result ≡ length self.now }
    {
        self.items.len()
    }

    /// Whether there are none.
    pub fn is_empty(&self) -> bool
        ensures { IsTrue result ↔ (self.now ≡ []) }
    {
        self.items.is_empty()
    }

    /// Lends the origins.
    pub fn as_slice(&self) -> &[Origin]
        ensures { result.now ≡ self.now }
    {
        self.items.as_slice()
    }
}
