//! The work on a text: an edit of it, and how it comes to another text.

ghost use Rattle.std.specs.Prelude.{◌≡◌, ℕ, List, ◌≤◌, ◌<◌, ◌+◌, ◌^◌, ◌-◌, length, IfOk, IfErr, OnOk, OnErr};
ghost use Rattle.pad_text.specs.Text.{IsText};
ghost use Rattle.pad_text.specs.Hash.{document_hash};
ghost use Rattle.pad_patch.specs.Misfit.{longest_text};
ghost use Rattle.pad_patch.specs.Piece.{text_after};
ghost use Rattle.pad_message.specs.declared.message.Message.{Message};
ghost use Rattle.pad_model.specs.declared.base.Base.{Base};
ghost use Rattle.pad_model.specs.Path.{text};
ghost use Rattle.pad_model.specs.Choice.{Choice};
ghost use Rattle.pad_stroke.specs.Work.{empty};
ghost use Rattle.pad_stroke.specs.Edit.{IsAllowed, IsCause, shown_after, edited};
ghost use Rattle.pad_chain.specs.Leads.{Leads};
ghost use Rattle.pad_chain.specs.Tie.{StandsFor};
ghost use Rattle.client_work.specs.Switch.{switched};
ghost use Rattle.client_work.specs.Carrying.{Ground, behind_all, IsOnGround, AreInverses, AreReady, all_moves};
ghost use Rattle.client_copy.specs.Held.{IsHeldOn};

use crate::leading::{is_same_text, lead_to};
use client_work::carry;
use pad_chain::{Chain, Moved};
use pad_merge::laws::applied_patches_merge;
use pad_patch::{Operation, Steps, UnitStore};
use pad_row::edits::{
    allowed_applies, edit_typed, marks_of_stroke, others_stay_typed, typed_whole,
};
use pad_row::pairs::{turn_typed, turn_whole};
use pad_stroke::laws::marks_come_from_either;
use pad_stroke::{EditRefused, Work};
use pad_text::Name;
use std::alloc::{AllocError, Global};
use std::collections::BTreeMap;
use std::sync::ledger::Ledger;

/// The text of a chain is a text, and no longer than one may be. It only reads it.
pub(crate) fn has_text<S: UnitStore>(chain: &Chain<S>)
    ensures text { IsText chain.now.branch.branch.units }
    ensures short { length chain.now.branch.branch.units ≤ longest_text }
{
    let _units = chain.text();
}

/// Merges an edit of the shown text into the work, with the next stroke number.
pub(crate) fn edit_work<S: UnitStore>(
    alloc: Global,
    text: &S,
    work: &mut Work,
    sent: &BTreeMap<Name, Work>,
    op: Operation,
    strokes: &mut u64,
) -> Result<(), EditRefused>
    requires held { IsHeldOn (S.units text.now) work.old sent.now.entries strokes.old }
    requires left { strokes.old < 2 ^ 64 - 1 }
    ensures held { IsHeldOn (S.units text.now) work.new sent.now.entries strokes.new }
    ensures edited { OnOk result (work.new ≡ edited work.old op (strokes.old + 1) (length (S.units text.now))) }
    ensures shown { OnOk result (text_after work.new.patch (S.units text.now) ≡ shown_after op (text_after work.old.patch (S.units text.now))) }
    ensures counted { OnOk result (strokes.new ≡ strokes.old + 1) }
    ensures allowed { OnOk result (IsAllowed (text_after work.old.patch (S.units text.now)) op) }
    ensures cause { IfErr result (IsCause (text_after work.old.patch (S.units text.now)) op) }
    ensures work { OnErr result (work.new ≡ work.old) }
    ensures strokes { OnErr result (strokes.new ≡ strokes.old) }
{
    applied_patches_merge();
    allowed_applies();
    edit_typed();
    others_stay_typed();
    marks_of_stroke();
    typed_whole();
    turn_whole();
    turn_typed();
    marks_come_from_either();
    let _units = op.insert.as_units();
    let stroke = *strokes + 1;
    work.edit(alloc, text, op, stroke)?;
    *strokes = stroke;
    Ok(())
}

/// The work comes along by what moved, from a text of `size` units to one with the hash `end`. If memory runs out on the way, it is
/// `spare`, which is an empty one for that text; and so it is if the work was made for another text then, which needs a clash of names.
pub(crate) fn bring_along(
    alloc: Global,
    work: &mut Work,
    spare: Work,
    sent: &BTreeMap<Name, Work>,
    moved: &Moved,
    size: usize,
    end: &Name,
) -> Result<(), AllocError>
    requires { (grounds : Ground) × AreReady grounds sent.now.entries (all_moves moved.now) size end.now work.old }
    ensures stands { (grounds : Ground) → AreReady grounds sent.now.entries (all_moves moved.now) size end.now work.old → IsOnGround (behind_all (all_moves moved.now) grounds) spare
        → IsOnGround (behind_all (all_moves moved.now) grounds) work.new }
    ensures made { spare.patch.before ≡ end.now → work.new.patch.before ≡ end.now }
    ensures switched { OnOk result ((grounds : Ground) → AreReady grounds sent.now.entries (all_moves moved.now) size end.now work.old → AreInverses sent.now.entries moved.now.reverted grounds.text
        → (switched sent.now.entries moved.now (record { text = grounds.text; work = work.old })).work.patch.before ≡ end.now
        → work.new ≡ (switched sent.now.entries moved.now (record { text = grounds.text; work = work.old })).work) }
{
    let mut next = std::mem::replace(work, spare);
    carry(alloc, &mut next, sent, moved, size, end)?;
    let patch = next.patch(alloc)?;
    if patch.before != *end {
        return Ok(());
    }
    *work = next;
    Ok(())
}

/// A work without operations on the text of a chain.
pub(crate) fn empty_work<S: UnitStore>(alloc: Global, chain: &Chain<S>) -> Result<Work, AllocError>
    ensures empty { IfOk result (λ work. work ≡ empty (document_hash chain.now.branch.branch.units)) }
    ensures stands { IfOk result (λ work. (base : Base) (received : List Message) (choice : Choice) → StandsFor chain.now base received choice → work ≡ empty (document_hash (text base choice.chosen))) }
    ensures text { IsText chain.now.branch.branch.units }
    ensures short { length chain.now.branch.branch.units ≤ longest_text }
{
    has_text(chain);
    Work::new(alloc, chain.hash())
}

/// The work on a text as it comes along to that of a chain, from a path of it to whose end `from` is the text. It is empty if that is
/// another text than the work's, or if the moves do not lead on from it.
pub(crate) fn carried_to<S: UnitStore, L: Ledger>(
    alloc: Global,
    work: &Work,
    sent: &BTreeMap<Name, Work>,
    text: &S,
    chain: &Chain<S>,
    from: &S,
    moved: &Moved,
    steps: &mut Steps<L>,
) -> Result<Work, AllocError>
    requires { (strokes : ℕ) × IsHeldOn (S.units text.now) work.now sent.now.entries strokes }
    ensures held { IfOk result (λ next. (strokes : ℕ) → IsHeldOn (S.units text.now) work.now sent.now.entries strokes → IsHeldOn chain.now.branch.branch.units next sent.now.entries strokes) }
    ensures switched { IfOk result (λ next. S.units from.now ≡ S.units text.now → Leads (all_moves moved.now) (S.units from.now) chain.now.branch.branch.units
        → AreInverses sent.now.entries moved.now.reverted (S.units text.now)
        → (switched sent.now.entries moved.now (record { text = S.units text.now; work = work.now })).work.patch.before ≡ document_hash chain.now.branch.branch.units
        → next ≡ (switched sent.now.entries moved.now (record { text = S.units text.now; work = work.now })).work) }
{
    let spare = empty_work(alloc, chain)?;
    let back = moved.reverted.as_slice();
    let on = moved.applied.as_slice();
    if !is_same_text(from, text) {
        return Ok(spare);
    }
    if !lead_to(alloc, back, on, from, chain.text(), steps)? {
        return Ok(spare);
    }
    let mut next = work.copy(alloc)?;
    bring_along(
        alloc,
        &mut next,
        spare,
        sent,
        moved,
        text.length(),
        &chain.hash(),
    )?;
    Ok(next)
}
