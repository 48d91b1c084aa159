ghost use Rattle.std.specs.Prelude.{◌≡◌, IfOk};
ghost use Rattle.pad_text.specs.Text.{IsText};
ghost use Rattle.pad_patch.specs.Operation.{is_noop};
ghost use Rattle.pad_patch.specs.Piece.{end_of};

use pad_text::Text;
use std::alloc::{AllocError, Global};

/// One range of a text, in UTF-16 units, and what stands in its place.
#[derive(Debug, Drop)]
pub struct Operation {
    /// Where the range starts, in units of the text before.
    pub offset: u32,
    /// How many units it removes.
    pub remove: u32,
    /// What it puts there.
    pub insert: Text,
}

impl Operation {
    /// Where the range starts, as a place in a text.
    pub fn start(&self) -> usize
        ensures { result ≡ self.now.offset }
    {
        self.offset as usize
    }

    /// The place after the last unit that it removes.
    pub fn end(&self) -> usize
        ensures { result ≡ end_of self.now }
    {
        self.offset as usize + self.remove as usize
    }

    /// Whether it removes nothing and inserts nothing.
    pub fn is_noop(&self) -> bool
        ensures { result ≡ is_noop self.now }
    {
        self.remove == 0 && self.insert.len() == 0
    }

    /// A copy of the operation.
    pub fn copy(&self, alloc: Global) -> Result<Operation, AllocError>
        ensures copy { IfOk result (λ copy. copy ≡ self.now) }
        ensures text { IsText self.now.insert }
    {
        let units = self.insert.as_units().to_vec(alloc)?;
        Ok(Operation {
            offset: self.offset,
            remove: self.remove,
            insert: Text::from_units(units),
        })
    }
}
