//! The rope.
ghost use Rattle.std.specs.Prelude.{◌≡◌, ◌<◌, ◌≤◌, ◌*◌, ◌^◌, ◌++◌, length, IfOk, OnOk, slice_index};
ghost use Rattle.pad_text.specs.Text.{IsText};
ghost use Rattle.pad_text.specs.Hash.{document_hash};
ghost use Rattle.pad_patch.specs.UnitStore.{IsRange, between, replaced};
ghost use Rattle.pad_rope.specs.Inside.Shape.{IsSound};

use crate::edit;
use crate::saved::{Saved, hash, to_the_end, up_to};
use crate::tree::{LEAF_SIZE, Tree};
use pad_patch::UnitStore;
use pad_text::{Name, Text};
use std::alloc::{AllocError, Global};
use std::marker::Model;
use std::rc::Rc;

/// A tree, and the hashers that were saved for its text. Contracts see its units and its height.
#[derive(Drop)]
struct Kept {
    tree: Rc<Tree>,
    saved: Rc<Saved>,
}

impl Model for Kept {
    ghost use Rattle.pad_rope.specs.Inside.Shape.{Shape};
    ghost use Rattle.pad_rope.specs.Inside.Saved.{AreSaved};

    ghost Value = { Shape };

    ghost view = { λ kept. kept.tree.value };

    ghost invariant = { λ kept. AreSaved kept.tree.value.units kept.saved.value };
}

impl Kept {
    /// These units, with no hasher saved.
    fn new(alloc: Global, units: &[u16]) -> Result<Kept, AllocError>
        requires { IsText units.now }
        ensures { IfOk result (λ kept. kept.units ≡ units.now) }
    {
        let tree = edit::build(alloc, units)?;
        let saved = Rc::new(alloc, Saved::Start)?;
        Ok(Kept { tree, saved })
    }

    /// The length in units.
    fn length(&self) -> usize
        ensures count { result ≡ length self.now.units }
        ensures sound { IsSound self.now }
    {
        self.tree.length()
    }

    /// The height of the tree.
    fn height(&self) -> u32
        ensures height { result ≡ self.now.height }
        ensures sound { IsSound self.now }
    {
        self.tree.height()
    }

    /// The unit at a place.
    fn unit(&self, at: usize) -> u16
        requires { at < length self.now.units }
        ensures { result ≡ slice_index self.now.units at }
    {
        self.tree.unit(at)
    }

    /// Puts the units from one place to another after those of a vector.
    fn read_into(&self, from: usize, to: usize, units: &mut Vec<u16>) -> Result<(), AllocError>
        requires ordered { from ≤ to }
        requires inside { to ≤ length self.now.units }
        ensures { OnOk result (units.new.items ≡ units.old.items ++ between from to self.now.units) }
    {
        self.tree.read_into(from, to, units)
    }

    /// The text with another in place of the units from one place to another, and the hashers saved before the first of them.
    fn replaced(
        &self,
        alloc: Global,
        from: usize,
        to: usize,
        insert: &Text,
    ) -> Result<Kept, AllocError>
        requires { IsRange self.now.units from to }
        ensures { IfOk result (λ kept. kept.units ≡ replaced from to insert.now self.now.units) }
    {
        let units = insert.as_units();
        if self.tree.length().checked_add(units.len()).is_none() {
            return Err(AllocError);
        }
        let tree = edit::replace(alloc, &self.tree, from, to, units)?;
        let saved = up_to(&self.saved, from)?;
        Ok(Kept { tree, saved })
    }

    /// The same text and the same saved hashers.
    fn copy(&self) -> Result<Kept, AllocError>
        ensures { IfOk result (λ copy. copy ≡ self.now) }
    {
        let tree = self.tree.clone()?;
        let saved = self.saved.clone()?;
        Ok(Kept { tree, saved })
    }

    /// The same text, with hashers saved up to its end.
    fn remembered(&self, alloc: Global) -> Result<Kept, AllocError>
        ensures { IfOk result (λ kept. kept ≡ self.now) }
    {
        let tree = self.tree.clone()?;
        let saved = to_the_end(alloc, &tree, &self.saved)?;
        Ok(Kept { tree, saved })
    }

    /// The document hash, from the last saved hasher on.
    fn hash(&self, alloc: Global) -> Result<Name, AllocError>
        ensures { IfOk result (λ name. name ≡ document_hash self.now.units) }
    {
        hash(alloc, &self.tree, &self.saved)
    }
}

/// One text, whose pieces copies share. Contracts see the list of its UTF-16 units.
#[derive(Drop)]
pub struct Rope {
    kept: Kept,
    ghost is_text: { IsText kept.units },
}

impl Rope {
    ghost use Rattle.pad_rope.specs.Rope.{rope_units};

    /// The height of the tree that holds the text: 0 if it is one leaf of at most `LEAF_SIZE` units, and one more than that of
    /// the higher of its two sides otherwise.
    pub fn height(&self) -> u32
        ensures low { 1 ≤ length (rope_units self.now) → 2 ^ result ≤ length (rope_units self.now) * length (rope_units self.now) }
        ensures wide { length (rope_units self.now) ≤ LEAF_SIZE * 2 ^ result }
        ensures empty { length (rope_units self.now) ≡ 0 → result ≡ 0 }
    {
        self.kept.height()
    }
}

impl UnitStore for Rope {
    ghost use Rattle.pad_rope.specs.Rope.{rope_units};

    ghost units = { rope_units };

    fn from_text(alloc: Global, text: &Text) -> Result<Rope, AllocError> {
        let kept = Kept::new(alloc, text.as_units())?;
        Ok(Rope { kept })
    }

    fn length(&self) -> usize {
        self.kept.length()
    }

    fn unit(&self, at: usize) -> u16 {
        self.kept.unit(at)
    }

    fn read(&self, alloc: Global, from: usize, to: usize) -> Result<Text, AllocError> {
        let mut units = Vec::with_capacity(alloc, to - from)?;
        self.kept.read_into(from, to, &mut units)?;
        Ok(Text::from_units(units))
    }

    fn replace(
        &mut self,
        alloc: Global,
        from: usize,
        to: usize,
        insert: &Text,
    ) -> Result<(), AllocError> {
        let kept = self.kept.replaced(alloc, from, to, insert)?;
        let _length = kept.length();
        *self = Rope { kept };
        Ok(())
    }

    fn copy(&self, _alloc: Global) -> Result<Rope, AllocError> {
        let kept = self.kept.copy()?;
        Ok(Rope { kept })
    }

    fn hash(&self, alloc: Global) -> Result<Name, AllocError> {
        self.kept.hash(alloc)
    }

    fn remember(&mut self, alloc: Global) -> Result<(), AllocError> {
        self.kept = self.kept.remembered(alloc)?;
        Ok(())
    }

    ghost is_text = { λ store. store.is_text };
}
