//! Whether moves lead from one text to another.

ghost use Rattle.std.specs.Prelude.{◌≡◌, ◌≤◌, ◌+◌, ◌++◌, ◌↔◌, ℕ, List, length, IfOk, IfSome, IfNone, IsTrue};
ghost use Rattle.pad_patch.specs.Piece.{text_after};
ghost use Rattle.pad_chain.specs.Leads.{MoveFits, Leads};

use pad_branch::Move;
use pad_patch::laws::fitting_applies;
use pad_patch::{Steps, UnitStore};
use std::alloc::{AllocError, Global};
use std::sync::ledger::Ledger;

/// Whether two stores have the same text.
pub(crate) fn is_same_text<S: UnitStore>(one: &S, other: &S) -> bool
    ensures { IsTrue result ↔ (S.units one.now ≡ S.units other.now) }
{
    if one.length() != other.length() {
        return false;
    }
    for at in 0..one.length() {
        if one.unit(at) != other.unit(at) {
            return false;
        }
    }
    true
}

/// The text after a move, if the move fits this text. It is one step at most.
fn after_move<S: UnitStore, L: Ledger>(
    alloc: Global,
    step: &Move,
    text: &S,
    steps: &mut Steps<L>,
) -> Result<Option<S>, AllocError>
    ensures some { IfOk result (λ told. IfSome told (λ after. MoveFits step.now (S.units text.now) × (S.units after ≡ text_after step.now.patch (S.units text.now)))) }
    ensures none { IfOk result (λ told. IfNone told (¬ (MoveFits step.now (S.units text.now)))) }
    ensures cost { steps.new ≤ steps.old + 1 }
{
    fitting_applies();
    let hash = text.hash(alloc)?;
    let Ok(()) = step.patch.fits(text, &hash) else {
        return Ok(None);
    };
    let after = step.patch.apply_counted(alloc, text, steps)?;
    if step.kind.is_checkpoint() && !is_same_text(&after, text) {
        return Ok(None);
    }
    Ok(Some(after))
}

/// The text after these moves, if each of them fits in its turn. It is one step a move at most.
fn after_moves<S: UnitStore, L: Ledger>(
    alloc: Global,
    moves: &[Move],
    text: S,
    steps: &mut Steps<L>,
) -> Result<Option<S>, AllocError>
    ensures some { IfOk result (λ told. IfSome told (λ after. (to : List ℕ) (more : List Move) → Leads more (S.units after) to ↔ Leads (moves.now ++ more) (S.units text) to)) }
    ensures none { IfOk result (λ told. IfNone told ((to : List ℕ) (more : List Move) → ¬ (Leads (moves.now ++ more) (S.units text) to))) }
    ensures cost { steps.new ≤ steps.old + length moves.now }
{
    let mut text = text;
    for place in 0..moves.len() {
        let Some(after) = after_move(alloc, &moves[place], &text, steps)? else {
            return Ok(None);
        };
        text = after;
    }
    Ok(Some(text))
}

/// Whether these moves and then those fit a text one after another, and lead to another text.
pub(crate) fn lead_to<S: UnitStore, L: Ledger>(
    alloc: Global,
    back: &[Move],
    on: &[Move],
    from: &S,
    to: &S,
    steps: &mut Steps<L>,
) -> Result<bool, AllocError>
    ensures lead { IfOk result (λ lead. IsTrue lead ↔ Leads (back.now ++ on.now) (S.units from.now) (S.units to.now)) }
    ensures cost { steps.new ≤ steps.old + length back.now + length on.now }
{
    let text = from.copy(alloc)?;
    let Some(fork) = after_moves(alloc, back, text, steps)? else {
        return Ok(false);
    };
    let Some(end) = after_moves(alloc, on, fork, steps)? else {
        return Ok(false);
    };
    Ok(is_same_text(&end, to))
}
