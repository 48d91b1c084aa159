//! A work is carried over one move.

ghost use Rattle.std.specs.Prelude.{◌≡◌, length, if◌then◌else◌, All, OnOk, option_copied};
ghost use Rattle.pad_text.specs.Text.{IsText};
ghost use Rattle.pad_patch.specs.Piece.{text_after};
ghost use Rattle.pad_message.specs.Kind.{is_checkpoint};
ghost use Rattle.pad_stroke.specs.InTurn.{in_turn};
ghost use Rattle.pad_stroke.specs.Strip.{stripped};
ghost use Rattle.pad_stroke.specs.Through.{carried};
ghost use Rattle.client_work.specs.Switch.{taken_back, without_own};
ghost use Rattle.client_work.specs.Carrying.{Ground, behind, IsOwnWork, IsOnGround, IsCarried, TakesBack, IsInverse};
ghost use Rattle.client_work.specs.Inside.Steps.{IsReady, IsReadyFor, MergesBack};

use pad_branch::Move;
use pad_patch::Patch;
use pad_patch::laws::texts_stay_texts;
use pad_row::pairs::{
    carried_typed, carried_whole, stripped_typed, stripped_whole, strips_whole, turn_typed,
    turn_whole,
};
use pad_row::taking_back::{inverse_merges_back, taken_back_applies};
use pad_stroke::Work;
use pad_stroke::laws::{
    joints_fit_within, marks_come_from_either, pairs_stay_whole, stripped_marks,
};
use pad_text::Name;
use pad_transform::laws::sums_fit_within;
use std::alloc::{AllocError, Global};

/// What a patch inserts are texts, as the type says. It only reads them.
fn inserts_texts(patch: &Patch)
    ensures { All (λ operation. IsText operation.insert) patch.now.ops }
{
    for op in patch.ops.as_slice() {
        let _units = op.insert.as_units();
    }
}

/// Carries a work over a move, to a text with this document hash.
fn over(alloc: Global, work: &mut Work, step: &Move, hash: &Name) -> Result<(), AllocError>
    requires { (grounds : Ground) × IsReady grounds step.now hash.now work.old }
    ensures carried { OnOk result (work.new ≡ carried work.old step.now.patch hash.now) }
    ensures stands { OnOk result ((grounds : Ground) → IsReady grounds step.now hash.now work.old → IsOnGround (behind step.now grounds) work.new) }
{
    inserts_texts(&step.patch);
    texts_stay_texts();
    sums_fit_within();
    joints_fit_within();
    carried_whole();
    carried_typed();
    work.through(alloc, &step.patch, hash)?;
    Ok(())
}

/// Merges a work that was sent back in front of the present one, after the test, to a text of `size` units.
fn merge_back(
    alloc: Global,
    work: &mut Work,
    own: &Work,
    step: &Move,
    size: usize,
) -> Result<(), AllocError>
    requires { (grounds : Ground) × MergesBack grounds own.now step.now size work.old }
    ensures back { OnOk result (work.new ≡ in_turn own.now work.old size) }
    ensures stands { OnOk result ((grounds : Ground) → MergesBack grounds own.now step.now size work.old → IsOnGround (behind step.now grounds) work.new) }
{
    inserts_texts(&step.patch);
    texts_stay_texts();
    taken_back_applies();
    turn_whole();
    turn_typed();
    marks_come_from_either();
    work.take_back(alloc, own, size)?;
    Ok(())
}

/// Carries a work back over a message as which a work was sent, to a text of `size` units with this document hash: that work is
/// merged back. If names clash, so that the message is not the one that was sent, it is taken for another's.
fn back_over_own(
    alloc: Global,
    work: &mut Work,
    own: &Work,
    step: &Move,
    size: usize,
    hash: &Name,
) -> Result<(), AllocError>
    requires { (grounds : Ground) × IsReady grounds step.now hash.now work.old × IsOwnWork grounds own.now × (size ≡ length (text_after step.now.patch grounds.text)) }
    ensures back { OnOk result ((grounds : Ground) → IsReady grounds step.now hash.now work.old → size ≡ length (text_after step.now.patch grounds.text) → TakesBack own.now step.now grounds.text
        → work.new ≡ in_turn own.now work.old size) }
    ensures stands { OnOk result ((grounds : Ground) → IsReady grounds step.now hash.now work.old → IsOwnWork grounds own.now → size ≡ length (text_after step.now.patch grounds.text)
        → IsOnGround (behind step.now grounds) work.new) }
{
    inverse_merges_back();
    if work.can_take_back(own, &step.patch, size) {
        return merge_back(alloc, work, own, step, size);
    }
    over(alloc, work, step, hash)
}

/// Takes the units out of a work that another work inserts, as both stand on one ground.
fn without(work: &mut Work, own: &Work)
    requires { (grounds : Ground) × IsOwnWork grounds work.old × IsOwnWork grounds own.now }
    ensures stripped { work.new ≡ stripped work.old own.now }
    ensures stands { (grounds : Ground) → IsOnGround grounds work.old → IsOwnWork grounds own.now → IsOnGround grounds work.new }
{
    strips_whole();
    pairs_stay_whole();
    stripped_whole();
    stripped_typed();
    stripped_marks();
    work.strip(own);
}

/// Carries a work back over one message that left the best chain, to a text of `size` units with this document hash.
pub(crate) fn go_back(
    alloc: Global,
    work: &mut Work,
    own: Option<&Work>,
    step: &Move,
    size: usize,
    hash: &Name,
) -> Result<(), AllocError>
    requires { (grounds : Ground) × IsReadyFor grounds (option_copied own) step.now hash.now work.old × (size ≡ length (text_after step.now.patch grounds.text)) }
    ensures back { OnOk result ((grounds : Ground) → IsReadyFor grounds (option_copied own.entry) step.now hash.now work.old → size ≡ length (text_after step.now.patch grounds.text)
        → IsInverse (option_copied own.entry) step.now grounds.text
        → work.new ≡ (if is_checkpoint step.now.kind then work.old else taken_back (option_copied own.entry) step.now (text_after step.now.patch grounds.text) work.old)) }
    ensures stands { OnOk result ((grounds : Ground) → IsReadyFor grounds (option_copied own.entry) step.now hash.now work.old → size ≡ length (text_after step.now.patch grounds.text)
        → IsOnGround (behind step.now grounds) work.new) }
{
    if step.kind.is_checkpoint() {
        return Ok(());
    }
    match own {
        Some(own) => back_over_own(alloc, work, own, step, size, hash),
        None => over(alloc, work, step, hash),
    }
}

/// Carries a work over one message that came onto the best chain, to a text with this document hash. The units that an own message
/// inserts are taken out of it first.
pub(crate) fn go_on(
    alloc: Global,
    work: &mut Work,
    own: Option<&Work>,
    step: &Move,
    hash: &Name,
) -> Result<(), AllocError>
    requires { (grounds : Ground) × IsReadyFor grounds (option_copied own) step.now hash.now work.old }
    ensures on { OnOk result ((grounds : Ground) → IsReadyFor grounds (option_copied own.entry) step.now hash.now work.old
        → work.new ≡ (if is_checkpoint step.now.kind then work.old else carried (without_own (option_copied own.entry) work.old) step.now.patch hash.now)) }
    ensures stands { OnOk result ((grounds : Ground) → IsReadyFor grounds (option_copied own.entry) step.now hash.now work.old → IsOnGround (behind step.now grounds) work.new) }
{
    if step.kind.is_checkpoint() {
        return Ok(());
    }
    match own {
        Some(own) => {
            without(work, own);
            over(alloc, work, step, hash)
        }
        None => over(alloc, work, step, hash),
    }
}
