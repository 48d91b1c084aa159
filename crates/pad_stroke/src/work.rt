ghost use Rattle.std.specs.Prelude.{◌≡◌, ◌≢◌, ℕ, ◌^◌, ◌<◌, ◌↔◌, List, [], length, slice_get, Some, IfOk, IfErr, OnOk, OnErr, IsTrue, Contains};
ghost use Rattle.std.specs.List.{All};
ghost use Rattle.pad_text.specs.Text.{IsText};
ghost use Rattle.pad_text.specs.Hash.{document_hash};
ghost use Rattle.pad_patch.specs.Piece.{text_after, inserted};
ghost use Rattle.pad_patch.specs.Misfit.{CanApply};
ghost use Rattle.pad_merge.specs.Merge.{CanMerge, CanMergeBack};
ghost use Rattle.pad_transform.specs.Table.{transformed_all, SumsFitThrough};
ghost use Rattle.pad_transform.specs.Carried.{BothApply, FitsButLength, RemovesOnlyKept};

use crate::edit_refused::EditRefused;
use crate::editing::{allow, marks_from, marks_typed};
use crate::joining::join_touching;
use crate::mark::Mark;
use crate::stripping::{strip_marks, strip_operations};
use pad_merge::laws::{
    applied_patches_merge, merged_applies, no_origin_twice, one_origin_each, origins_name_units,
};
use pad_merge::{can_merge_back, merge_from};
use pad_patch::{Operation, Operations, Patch, UnitStore};
use pad_text::{Name, Text};
use pad_transform::transform;
use std::alloc::{AllocError, Global};
use std::marker::Model;

/// Work that was not sent: a patch in normal form, and a mark for each unit that it inserts.
/// Contracts see the patch and the list of the marks.
#[derive(Debug, Drop)]
pub struct Work {
    patch: Patch,
    marks: Vec<Mark>,
}

impl Model for Work {
    ghost use Rattle.pad_stroke.specs.Work.{Marked, IsWork};

    ghost Value = { Marked };

    ghost view = { λ work. record { patch = work.patch; marks = work.marks.items } };

    ghost invariant = { λ work. IsWork (record { patch = work.patch; marks = work.marks.items }) };
}

impl Work {
    ghost use Rattle.pad_list.specs.Number.{NoRepeat};
    ghost use Rattle.pad_stroke.specs.Mark.{NoneInBoth};
    ghost use Rattle.pad_stroke.specs.Work.{IsWork, empty, moved_to};
    ghost use Rattle.pad_stroke.specs.InTurn.{in_turn};
    ghost use Rattle.pad_stroke.specs.Edit.{IsAllowed, IsCause, shown_after, typed, edited};
    ghost use Rattle.pad_stroke.specs.Through.{joined, carried};
    ghost use Rattle.pad_stroke.specs.Strip.{staying, thinned, stripped};

    /// A work without operations, on a text with this document hash.
    pub fn new(alloc: Global, before: Name) -> Result<Work, AllocError>
        ensures empty { IfOk result (λ work. work ≡ empty before) }
        ensures work { IfOk result (λ work. IsWork work) }
    {
        Ok(Work {
            patch: Patch {
                ops: Operations::new(Vec::new(alloc)),
                before,
            },
            marks: Vec::new(alloc),
        })
    }

    /// Merges an operation on the shown text, which is the text with the work applied, into the work. The units that it
    /// inserts get the marks of this stroke, from index 0. The work is unchanged when it is refused.
    pub fn edit<S: UnitStore>(
        &mut self,
        alloc: Global,
        text: &S,
        op: Operation,
        stroke: u64,
    ) -> Result<(), EditRefused>
        requires small { length (S.units text.now) < 2 ^ 32 }
        requires applies { CanApply self.old.patch (S.units text.now) }
        requires hash { self.old.patch.before ≡ document_hash (S.units text.now) }
        requires fresh { All (λ mark. mark.stroke ≢ stroke) self.old.marks }
        ensures edited { OnOk result (self.new ≡ edited self.old op stroke (length (S.units text.now))) }
        ensures shown { OnOk result (text_after self.new.patch (S.units text.now)
            ≡ shown_after op (text_after self.old.patch (S.units text.now))) }
        ensures applies { OnOk result (CanApply self.new.patch (S.units text.now)) }
        ensures before { self.new.patch.before ≡ self.old.patch.before }
        ensures different { OnOk result (NoRepeat self.old.marks → NoRepeat self.new.marks) }
        ensures work { IsWork self.new }
        ensures err { OnErr result (self.new ≡ self.old) }

        // Each refusal comes exactly where its cause does.
        ensures allowed { OnOk result (IsAllowed (text_after self.old.patch (S.units text.now)) op) }
        ensures cause { IfErr result (IsCause (text_after self.old.patch (S.units text.now)) op) }
    {
        applied_patches_merge();
        let shown = self.shown(alloc, text)?;
        allow(&shown, &op)?;
        *self = self.after_typing(alloc, op, stroke, text.length())?;
        Ok(())
    }

    /// Takes back work that was done before this one: it becomes that work, on a text of `len` units, and then this one.
    /// No mark stands twice after it if none did before and none stands in both works. The work is unchanged if there is
    /// no memory.
    pub fn take_back(&mut self, alloc: Global, of: &Work, len: usize) -> Result<(), AllocError>
        requires small { len < 2 ^ 32 }
        requires can { CanMerge of.now.patch self.old.patch len }
        ensures taken_back { OnOk result (self.new ≡ in_turn of.now self.old len) }
        ensures both { OnOk result ((text : List ℕ) → length text ≡ len
            → text_after self.new.patch text ≡ text_after self.old.patch (text_after of.now.patch text)) }
        ensures applies { OnOk result ((text : List ℕ) → length text ≡ len → CanApply of.now.patch text
            → CanApply self.old.patch (text_after of.now.patch text) → CanApply self.new.patch text) }
        ensures before { OnOk result (self.new.patch.before ≡ of.now.patch.before) }
        ensures different { OnOk result (NoRepeat of.now.marks → NoRepeat self.old.marks → NoneInBoth of.now.marks self.old.marks
            → NoRepeat self.new.marks) }
        ensures work { IsWork self.new }
        ensures err { OnErr result (self.new ≡ self.old) }
    {
        *self = of.followed_by(alloc, &self.patch, self.marks.as_slice(), len)?;
        Ok(())
    }

    /// Whether a work that was sent can be taken back on a text of `len` units, where `back` is the patch that has just taken
    /// back the message that it was sent as: what `take_back` asks, and that `back` has the ranges of that work's inverse. If
    /// so, what comes of it can be applied to that text. It takes no memory.
    pub fn can_take_back(&self, of: &Work, back: &Patch, len: usize) -> bool
        ensures can { IsTrue result ↔ CanMergeBack of.now.patch back.now self.now.patch len }
        ensures work { IsWork self.now }
    {
        can_merge_back(&of.patch, back, &self.patch, len)
    }

    /// Carries the work over a patch on the same text; `after` is the document hash of the text after that patch. Each
    /// unit keeps its mark, and operations that touch then are joined. The work is unchanged where there is no memory.
    pub fn through(&mut self, alloc: Global, by: &Patch, after: &Name) -> Result<(), AllocError>
        requires sums { All (SumsFitThrough by.now.ops) self.old.patch.ops }
        requires joints { All (λ operation. operation.remove < 2 ^ 32) (joined (transformed_all self.old.patch by.now)) }
        ensures carried { OnOk result (self.new ≡ carried self.old by.now after.now) }
        ensures before { OnOk result (self.new.patch.before ≡ after.now) }
        ensures insertions { OnOk result (inserted self.new.patch ≡ inserted self.old.patch) }
        ensures marks { self.new.marks ≡ self.old.marks }
        ensures work { IsWork self.new }
        ensures err { OnErr result (self.new ≡ self.old) }

        // For each text to which both patches can be applied.
        ensures applies { OnOk result ((text : List ℕ) → BothApply self.old.patch by.now text
            → CanApply self.new.patch (text_after by.now text)) }
        ensures fits { OnOk result ((text : List ℕ) → BothApply self.old.patch by.now text
            → after.now ≡ document_hash (text_after by.now text)
            → FitsButLength self.new.patch (text_after by.now text)) }
        ensures removals { OnOk result ((text : List ℕ) → BothApply self.old.patch by.now text
            → RemovesOnlyKept self.new.patch self.old.patch by.now text) }
    {
        let moved = transform(alloc, &self.patch, by, after)?;
        self.patch = Patch {
            ops: join_touching(alloc, moved.ops)?,
            before: moved.before,
        };
        Ok(())
    }

    /// Takes out each inserted unit whose mark the other work has, and then each operation that is empty. It takes no memory.
    pub fn strip(&mut self, of: &Work)
        requires { All (λ operation. IsText operation.insert) (thinned of.now.marks self.old.patch.ops self.old.marks) }
        ensures stripped { self.new ≡ stripped self.old of.now }
        ensures units { inserted self.new.patch ≡ staying of.now.marks (inserted self.old.patch) self.old.marks }
        ensures applies { (text : List ℕ) → CanApply self.old.patch text → CanApply self.new.patch text }
        ensures before { self.new.patch.before ≡ self.old.patch.before }
        ensures different { NoRepeat self.old.marks → NoRepeat self.new.marks }
        ensures work { IsWork self.new }
    {
        let alloc = *self.marks.allocator();
        let gone = of.marks.as_slice();
        let ops = std::mem::replace(&mut self.patch.ops, Operations::new(Vec::new(alloc)));
        self.patch.ops = Operations::new(strip_operations(
            ops.into_vec(),
            self.marks.as_slice(),
            gone,
        ));
        strip_marks(&mut self.marks, gone);
    }

    /// A copy of the patch.
    pub fn patch(&self, alloc: Global) -> Result<Patch, AllocError>
        ensures patch { IfOk result (λ patch. patch ≡ self.now.patch) }
        ensures work { IsWork self.now }
    {
        self.patch.copy(alloc)
    }

    /// A copy of the work.
    pub fn copy(&self, alloc: Global) -> Result<Work, AllocError>
        ensures copy { IfOk result (λ copy. copy ≡ self.now) }
        ensures work { IsWork self.now }
    {
        Ok(Work {
            patch: self.patch.copy(alloc)?,
            marks: self.marks.as_slice().to_vec(alloc)?,
        })
    }

    /// Whether the patch has no operation.
    pub fn is_empty(&self) -> bool
        ensures empty { IsTrue result ↔ (self.now.patch.ops ≡ []) }
        ensures work { IsWork self.now }
    {
        self.patch.ops.as_slice().is_empty()
    }

    /// Whether the work inserts the unit with this mark.
    pub fn holds(&self, mark: Mark) -> bool
        ensures holds { IsTrue result ↔ Contains self.now.marks mark }
        ensures work { IsWork self.now }
    {
        self.marks.contains(&mark)
    }

    /// Moves the work to a text with another document hash; all else stays. The work removes nothing of its text.
    pub fn move_to(&mut self, before: Name)
        requires { All (λ operation. operation.remove ≡ 0) self.old.patch.ops }
        ensures moved { self.new ≡ moved_to self.old before }
        ensures applies { CanApply self.old.patch [] → (text : List ℕ) → CanApply self.new.patch text }
        ensures work { IsWork self.new }
    {
        self.patch.before = before;
    }

    /// Lends the marks, in the order of the units that the work inserts.
    pub fn marks(&self) -> &[Mark]
        ensures marks { result.now ≡ self.now.marks }
        ensures work { IsWork self.now }
    {
        let _ = &self.patch;
        self.marks.as_slice()
    }

    /// The mark of the unit at an index among all that the work inserts.
    pub fn mark_at(&self, index: u64) -> Mark
        requires { index < length (inserted self.now.patch) }
        ensures mark { slice_get self.now.marks index ≡ Some result }
        ensures work { IsWork self.now }
    {
        self.marks[index as usize]
    }

    /// Whether no mark of the work has this stroke: what `edit` asks.
    pub fn is_new_stroke(&self, stroke: u64) -> bool
        ensures new { IsTrue result ↔ All (λ mark. mark.stroke ≢ stroke) self.now.marks }
        ensures work { IsWork self.now }
    {
        let _ = &self.patch;
        self.marks
            .as_slice()
            .iter()
            .all(|mark| mark.stroke != stroke)
    }

    /// The text with the work applied.
    fn shown<S: UnitStore>(&self, alloc: Global, text: &S) -> Result<Text, AllocError>
        requires { CanApply self.now.patch (S.units text.now) }
        ensures shown { IfOk result (λ shown. shown ≡ text_after self.now.patch (S.units text.now)) }
        ensures work { IsWork self.now }
    {
        let shown = self.patch.apply(alloc, text)?;
        shown.read(alloc, 0, shown.length())
    }

    /// The work and then an operation that one edit types, on a text of `len` units.
    fn after_typing(
        &self,
        alloc: Global,
        op: Operation,
        stroke: u64,
        len: usize,
    ) -> Result<Work, AllocError>
        requires small { len < 2 ^ 32 }
        requires can { CanMerge self.now.patch (typed self.now op stroke).patch len }
        requires fresh { All (λ mark. mark.stroke ≢ stroke) self.now.marks }
        ensures edited { IfOk result (λ work. work ≡ edited self.now op stroke len) }
        ensures both { IfOk result (λ work. (text : List ℕ) → length text ≡ len
            → text_after work.patch text ≡ text_after (typed self.now op stroke).patch (text_after self.now.patch text)) }
        ensures applies { IfOk result (λ work. (text : List ℕ) → length text ≡ len → CanApply self.now.patch text
            → CanApply (typed self.now op stroke).patch (text_after self.now.patch text) → CanApply work.patch text) }
        ensures before { IfOk result (λ work. work.patch.before ≡ self.now.patch.before) }
        ensures different { IfOk result (λ work. NoRepeat self.now.marks → NoRepeat work.marks) }
        ensures work { IfOk result (λ work. IsWork work) }
    {
        let marks = marks_typed(alloc, stroke, op.insert.as_units().len())?;
        let mut ops = Vec::new(alloc);
        ops.push(op)?;
        let typed = Patch {
            ops: Operations::new(ops),
            before: self.patch.before,
        };
        self.followed_by(alloc, &typed, marks.as_slice(), len)
    }

    /// The work and then a patch whose inserted units have these marks, on a text of `len` units.
    fn followed_by(
        &self,
        alloc: Global,
        patch: &Patch,
        marks: &[Mark],
        len: usize,
    ) -> Result<Work, AllocError>
        requires small { len < 2 ^ 32 }
        requires can { CanMerge self.now.patch patch.now len }
        requires counted { length marks.now ≡ length (inserted patch.now) }
        requires texts { All (λ operation. IsText operation.insert) patch.now.ops }
        ensures in_turn { IfOk result (λ work. work ≡ in_turn self.now (record { patch = patch.now; marks = marks.now }) len) }
        ensures both { IfOk result (λ work. (text : List ℕ) → length text ≡ len
            → text_after work.patch text ≡ text_after patch.now (text_after self.now.patch text)) }
        ensures applies { IfOk result (λ work. (text : List ℕ) → length text ≡ len → CanApply self.now.patch text
            → CanApply patch.now (text_after self.now.patch text) → CanApply work.patch text) }
        ensures before { IfOk result (λ work. work.patch.before ≡ self.now.patch.before) }
        ensures different { IfOk result (λ work. NoRepeat self.now.marks → NoRepeat marks.now → NoneInBoth self.now.marks marks.now
            → NoRepeat work.marks) }
        ensures work { IfOk result (λ work. IsWork work) }
    {
        one_origin_each();
        origins_name_units();
        no_origin_twice();
        merged_applies();
        let sourced = merge_from(alloc, &self.patch, patch, len)?;
        let marks = marks_from(alloc, sourced.from.as_slice(), self.marks.as_slice(), marks)?;
        Ok(Work {
            patch: sourced.patch,
            marks,
        })
    }
}

#[cfg(test)]
mod tests;
