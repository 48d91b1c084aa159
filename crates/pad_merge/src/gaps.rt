ghost use Rattle.std.specs.Prelude.{◌≡◌, ◌<◌, ◌≤◌, ◌^◌, ◌++◌, [], OnOk, IfOk};
ghost use Rattle.pad_text.specs.Text.{IsText};
ghost use Rattle.pad_merge.specs.Merge.{gap};

use pad_patch::{Operation, Operations};
use pad_text::Text;
use std::alloc::{AllocError, Global};

/// Operations that are read off the sources of a copy, from left to right.
#[derive(Debug, Drop)]
pub(crate) struct Gaps {
    /// The operations so far.
    pub ops: Vec<Operation>,
    /// The place behind the last kept unit.
    pub place: usize,
    /// The new units since.
    pub inserted: Vec<u16>,
}

impl Gaps {
    /// The start of a copy.
    pub fn new(alloc: Global) -> Gaps
        ensures ops { result.ops.items ≡ [] }
        ensures place { result.place ≡ 0 }
        ensures inserted { result.inserted.items ≡ [] }
    {
        Gaps {
            ops: Vec::new(alloc),
            place: 0,
            inserted: Vec::new(alloc),
        }
    }

    /// Ends the gap where units from this place on are kept.
    pub fn close(&mut self, alloc: Global, to: usize) -> Result<(), AllocError>
        requires order { self.old.place ≤ to }
        requires small { to < 2 ^ 32 }
        requires text { IsText self.old.inserted.items }
        ensures ops { OnOk result (self.new.ops.items ≡ self.old.ops.items ++ gap self.old.place to self.old.inserted.items) }
        ensures inserted { OnOk result (self.new.inserted.items ≡ []) }
    {
        if self.place == to && self.inserted.is_empty() {
            return Ok(());
        }
        let insert = Text::from_units(std::mem::replace(&mut self.inserted, Vec::new(alloc)));
        self.ops.push(Operation {
            offset: self.place as u32,
            remove: (to - self.place) as u32,
            insert,
        })?;
        Ok(())
    }
}
