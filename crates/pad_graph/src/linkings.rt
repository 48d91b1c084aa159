ghost use Rattle.std.specs.Prelude.{◌≡◌, List};
ghost use Rattle.pad_graph.specs.declared.linking.Linking.{Linking};

use crate::linking::Linking;
use std::marker::Model;

/// Messages that became linked. Contracts see the list.
#[derive(Debug, Drop)]
pub struct Linkings {
    items: Vec<Linking>,
}

impl Model for Linkings {
    ghost Value = { List Linking };

    ghost view = { λ linkings. linkings.items.items };
}

impl Linkings {
    /// The linkings of this vector, in its order. It only moves the vector.
    pub fn new(items: Vec<Linking>) -> Linkings
        ensures { result ≡ items.items }
    {
        Linkings { items }
    }

    /// Lends the linkings.
    pub fn as_slice(&self) -> &[Linking]
        ensures { result.now ≡ self.now }
    {
        self.items.as_slice()
    }
}
