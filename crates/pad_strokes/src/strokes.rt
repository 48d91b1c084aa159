ghost use Rattle.std.specs.Prelude.{◌≡◌, ◌++◌, ◌∷◌, [], option_to_list, option_copied, OnOk, OnErr, IfOk};
ghost use Rattle.pad_strokes.specs.Strokes.{no_strokes, newest, numbers_of, after_change, without_redo};

use crate::stroke::Stroke;
use pad_patch::Operation;
use std::alloc::{AllocError, Global};
use std::marker::Model;

/// The strokes that were not undone, and those that can be redone. Contracts see the lists.
#[derive(Debug, Drop)]
pub struct Strokes {
    earlier: Vec<u64>,
    done: Vec<Stroke>,
    undone: Vec<Operation>,
}

impl Model for Strokes {
    ghost use Rattle.pad_strokes.specs.Strokes.{Strokes};

    ghost Value = { Strokes };

    ghost view = { λ strokes. record { earlier = strokes.earlier.items; done = strokes.done.items; undone = strokes.undone.items } };
}

impl Strokes {
    /// No strokes.
    pub fn new(alloc: Global) -> Strokes
        ensures { result ≡ no_strokes }
    {
        Strokes {
            earlier: Vec::new(alloc),
            done: Vec::new(alloc),
            undone: Vec::new(alloc),
        }
    }

    /// The last stroke, if it was typed since the last other change: an undo takes it back exactly.
    pub fn last(&self) -> Option<&Stroke>
        ensures { option_copied result ≡ newest self.now.done }
    {
        self.done.last()
    }

    /// The number of the last stroke that was typed before the last other change.
    pub fn last_earlier(&self) -> Option<u64>
        ensures { result ≡ newest self.now.earlier }
    {
        self.earlier.last().copied()
    }

    /// The operation of the stroke that was undone last, if it can be redone.
    pub fn last_undone(&self) -> Option<&Operation>
        ensures { option_copied result ≡ newest self.now.undone }
    {
        self.undone.last()
    }

    /// Adds a stroke, which is typed or redone. Nothing is changed if memory runs out.
    pub fn add(&mut self, stroke: Stroke) -> Result<(), AllocError>
        ensures ok { OnOk result (self.new ≡ record self.old { done = self.old.done ++ stroke ∷ [] }) }
        ensures err { OnErr result (self.new ≡ self.old) }
    {
        self.done.push(stroke)?;
        Ok(())
    }

    /// Takes off the last stroke that was typed since the last other change: it was undone, or its edit was refused.
    pub fn take(&mut self) -> Option<Stroke>
        ensures taken { self.old ≡ record self.new { done = self.new.done ++ option_to_list result } }
        ensures value { result ≡ newest self.old.done }
    {
        self.done.pop()
    }

    /// Takes off the last stroke that was typed before the last other change: its units were taken out. Nothing can be redone then.
    pub fn take_earlier(&mut self) -> Option<u64>
        ensures taken { without_redo self.old ≡ record self.new { earlier = self.new.earlier ++ option_to_list result } }
        ensures value { result ≡ newest self.old.earlier }
    {
        self.undone.clear();
        self.earlier.pop()
    }

    /// Adds the operation of a stroke that is undone, to be redone. Nothing is changed if memory runs out.
    pub fn add_undone(&mut self, op: Operation) -> Result<(), AllocError>
        ensures ok { OnOk result (self.new ≡ record self.old { undone = self.old.undone ++ op ∷ [] }) }
        ensures err { OnErr result (self.new ≡ self.old) }
    {
        self.undone.push(op)?;
        Ok(())
    }

    /// Takes off the operation of the stroke that was undone last: it was redone, or its undo was refused.
    pub fn take_undone(&mut self) -> Option<Operation>
        ensures taken { self.old ≡ record self.new { undone = self.new.undone ++ option_to_list result } }
        ensures value { result ≡ newest self.old.undone }
    {
        self.undone.pop()
    }

    /// Nothing can be redone any more: the user has typed.
    pub fn forget_undone(&mut self)
        ensures { self.new ≡ without_redo self.old }
    {
        self.undone.clear();
    }

    /// Another change has come: no stroke so far can be undone exactly any more, and none redone. Nothing is changed if memory runs out.
    pub fn changed(&mut self, alloc: Global) -> Result<(), AllocError>
        ensures ok { OnOk result (self.new ≡ after_change self.old) }
        ensures err { OnErr result (self.new ≡ self.old) }
    {
        let numbers = numbers_of(alloc, self.done.as_slice())?;
        self.earlier.extend_from_slice(numbers.as_slice())?;
        self.done.clear();
        self.undone.clear();
        Ok(())
    }

    /// Forgets all strokes.
    pub fn clear(&mut self)
        ensures { self.new ≡ no_strokes }
    {
        self.earlier.clear();
        self.done.clear();
        self.undone.clear();
    }
}

/// The numbers of strokes, in order.
fn numbers_of(alloc: Global, strokes: &[Stroke]) -> Result<Vec<u64>, AllocError>
    ensures { IfOk result (λ numbers. numbers.items ≡ numbers_of strokes.now) }
{
    let mut numbers = Vec::new(alloc);
    for stroke in strokes {
        numbers.push(stroke.number)?;
    }
    Ok(numbers)
}
