ghost use Rattle.std.specs.Prelude.{◌≡◌};

use crate::operation::Operation;
use std::marker::Model;

/// Operations in order. Contracts see the list.
#[derive(Debug, Drop)]
pub struct Operations {
    items: Vec<Operation>,
}

impl Model for Operations {
    ghost use Rattle.std.specs.Prelude.{List};
    ghost use Rattle.pad_patch.specs.declared.operation.Operation.{Operation};

    ghost Value = { List Operation };

    ghost view = { λ operations. operations.items.items };
}

impl Operations {
    /// The operations of this vector, in its order. It only moves the vector.
    pub fn new(items: Vec<Operation>) -> Operations
        ensures { result ≡ items.items }
    {
        Operations { items }
    }

    /// The operations, as the vector that holds them. It only moves the vector.
    pub fn into_vec(self) -> Vec<Operation>
        ensures { result.items ≡ self }
    {
        self.items
    }

    /// Lends the operations.
    pub fn as_slice(&self) -> &[Operation]
        ensures { result.now ≡ self.now }
    {
        self.items.as_slice()
    }
}
