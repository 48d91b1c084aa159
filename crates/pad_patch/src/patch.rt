ghost use Rattle.std.specs.Prelude.{◌≡◌, ℕ, ◌^◌, ◌<◌, ◌↔◌, List, length, All, IfOk, IfErr, IsOk, OnOk, IsTrue};
ghost use Rattle.pad_text.specs.Text.{IsText};
ghost use Rattle.pad_text.specs.Hash.{document_hash};
ghost use Rattle.pad_patch.specs.Piece.{length_after, text_after};
ghost use Rattle.pad_patch.specs.Inverse.{inverse};
ghost use Rattle.pad_patch.specs.Misfit.{Overlaps, EndsAfter, CutsPairAt, CanApply, Fits, IsFirstMisfit, IsLeast, longest_text};

use crate::misfit::Misfit;
use crate::operation::Operation;
use crate::operations::Operations;
use crate::unit_store::{UnitStore, cuts_pair};
use pad_text::Name;
use std::alloc::{AllocError, Global};

/// The most units that a text may have after a patch.
pub const LONGEST_TEXT: usize = 262_144;

/// Operations that all speak of one text, and that text's document hash.
#[derive(Debug, Drop)]
pub struct Patch {
    /// The operations, from left to right.
    pub ops: Operations,
    /// The document hash of the text before.
    pub before: Name,
}

impl Patch {
    /// Whether the patch fits a text with this document hash. Otherwise it answers the first misfit.
    pub fn fits<S: UnitStore>(&self, text: &S, hash: &Name) -> Result<(), Misfit>
        requires { hash.now ≡ document_hash (S.units text.now) }
        ensures fits { IsOk result ↔ Fits self.now (S.units text.now) }
        ensures applies { OnOk result (CanApply self.now (S.units text.now)) }
        ensures misfit { IfErr result (IsFirstMisfit self.now (S.units text.now)) }
    {
        if let Some(index) = self.first_overlap() {
            return Err(Misfit::Order(index));
        }
        let size = text.length();
        if let Some(index) = self.first_past(size) {
            return Err(Misfit::Range(index));
        }
        if let Some(index) = self.first_cut(text) {
            return Err(Misfit::Pair(index));
        }
        if self.is_too_long(size) {
            return Err(Misfit::TooLong);
        }
        if self.before != *hash {
            return Err(Misfit::BeforeHash);
        }
        Ok(())
    }

    /// The text after the patch, in a store of its own.
    pub fn apply<S: UnitStore>(&self, alloc: Global, text: &S) -> Result<S, AllocError>
        requires { CanApply self.now (S.units text.now) }
        ensures { IfOk result (λ after. S.units after ≡ text_after self.now (S.units text.now)) }
    {
        let ops = self.ops.as_slice();
        let mut after = text.copy(alloc)?;
        // From the last to the first, so that the places of the others stay what they are.
        for index in (0..ops.len()).rev() {
            let op = &ops[index];
            after.replace(alloc, op.start(), op.end(), &op.insert)?;
        }
        Ok(after)
    }

    /// The patch that gives the text back where it stood before this one, with `after` for the document hash of the text after this one.
    pub fn invert<S: UnitStore>(
        &self,
        alloc: Global,
        text: &S,
        after: &Name,
    ) -> Result<Patch, AllocError>
        requires can { CanApply self.now (S.units text.now) }
        requires small { length (S.units text.now) < 2 ^ 32 }
        requires small_after { length (text_after self.now (S.units text.now)) < 2 ^ 32 }
        requires hash { after.now ≡ document_hash (text_after self.now (S.units text.now)) }
        ensures inverse { IfOk result (λ patch. patch ≡ inverse self.now (S.units text.now)) }
        ensures undoes { IfOk result (λ patch. text_after patch (text_after self.now (S.units text.now)) ≡ S.units text.now) }
        ensures applies { IfOk result (λ patch. CanApply patch (text_after self.now (S.units text.now))) }
    {
        let mut ops = Vec::with_capacity(alloc, self.ops.as_slice().len())?;
        let mut inserted = 0;
        let mut removed = 0;
        for op in self.ops.as_slice() {
            let count = op.insert.as_units().len();
            let insert = text.read(alloc, op.start(), op.end())?;
            ops.push(Operation {
                offset: (op.start() + inserted - removed) as u32,
                remove: count as u32,
                insert,
            })?;
            inserted += count;
            removed += op.remove as usize;
        }
        Ok(Patch {
            ops: Operations::new(ops),
            before: *after,
        })
    }

    /// A copy of the patch.
    pub fn copy(&self, alloc: Global) -> Result<Patch, AllocError>
        ensures copy { IfOk result (λ copy. copy ≡ self.now) }
        ensures texts { OnOk result (All (λ operation. IsText operation.insert) self.now.ops) }
    {
        let mut ops = Vec::with_capacity(alloc, self.ops.as_slice().len())?;
        for op in self.ops.as_slice() {
            ops.push(op.copy(alloc)?)?;
        }
        Ok(Patch {
            ops: Operations::new(ops),
            before: self.before,
        })
    }

    /// The length in units of a text of `size` units after the patch.
    pub fn length_after(&self, size: usize) -> usize
        requires ordered { (index : ℕ) → ¬ (Overlaps self.now index) }
        requires inside { (index : ℕ) → ¬ (EndsAfter self.now size index) }
        requires small { length_after self.now size < 2 ^ 32 }
        ensures { result ≡ length_after self.now size }
    {
        let mut length = 0;
        let mut place = 0;
        for op in self.ops.as_slice() {
            length += op.start() - place + op.insert.len();
            place = op.end();
        }
        length + (size - place)
    }

    /// The first operation that starts before the one before it ends.
    pub fn first_overlap(&self) -> Option<usize>
        ensures { IsLeast (Overlaps self.now) result }
    {
        let ops = self.ops.as_slice();
        for index in 1..ops.len() {
            if ops[index].start() < ops[index - 1].end() {
                return Some(index);
            }
        }
        None
    }

    /// The first operation that ends after a text of this length.
    pub fn first_past(&self, size: usize) -> Option<usize>
        ensures { IsLeast (EndsAfter self.now size) result }
    {
        for (index, op) in self.ops.as_slice().iter().enumerate() {
            if size < op.end() {
                return Some(index);
            }
        }
        None
    }

    /// The first operation whose start or end cuts a pair.
    fn first_cut<S: UnitStore>(&self, text: &S) -> Option<usize>
        ensures { IsLeast (CutsPairAt self.now (S.units text.now)) result }
    {
        for (index, op) in self.ops.as_slice().iter().enumerate() {
            if cuts_pair(text, op.start()) || cuts_pair(text, op.end()) {
                return Some(index);
            }
        }
        None
    }

    /// Whether a text of this length would be too long after the patch. It stops at the first unit too many.
    fn is_too_long(&self, size: usize) -> bool
        requires ordered { (index : ℕ) → ¬ (Overlaps self.now index) }
        requires inside { (index : ℕ) → ¬ (EndsAfter self.now size index) }
        ensures { IsTrue result ↔ (longest_text < length_after self.now size) }
    {
        let mut room = LONGEST_TEXT;
        let mut place = 0;
        for op in self.ops.as_slice() {
            let kept = op.start() - place;
            let inserted = op.insert.len();
            if room < kept || room - kept < inserted {
                return true;
            }
            room = room - kept - inserted;
            place = op.end();
        }
        room < size - place
    }
}
