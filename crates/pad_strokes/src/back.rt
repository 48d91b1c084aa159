//! What takes an edit back.

ghost use Rattle.std.specs.Prelude.{◌≡◌, ◌↔◌, None, IfOk, IfSome, IsTrue};
ghost use Rattle.pad_stroke.specs.Edit.{IsAllowed};
ghost use Rattle.pad_strokes.specs.Stroke.{taking_back, IsShort};

use pad_patch::{LONGEST_TEXT, Operation};
use pad_text::Text;
use std::alloc::{AllocError, Global};

/// The operation that takes an edit of the shown text back, on the text after the edit. There is none only if the edit is not allowed.
pub fn back_of(alloc: Global, op: &Operation, shown: &Text) -> Result<Option<Operation>, AllocError>
    ensures back { IfOk result (λ found. IfSome found (λ back. back ≡ taking_back op.now shown.now)) }
    ensures none { IfOk result (λ found. found ≡ None → ¬ (IsAllowed shown.now op.now)) }
{
    if shown.len() < op.end() || shown.cuts_pair(op.start()) || shown.cuts_pair(op.end()) {
        return Ok(None);
    }
    let typed = op.insert.len();
    if !is_short(typed, op.remove) {
        return Ok(None);
    }
    let insert = shown.slice(alloc, op.start(), op.end())?;
    Ok(Some(Operation {
        offset: op.offset,
        remove: typed as u32,
        insert,
    }))
}

/// Whether so many units are no more than a text may have, or no more than are removed for them.
fn is_short(typed: usize, removed: u32) -> bool
    ensures { IsTrue result ↔ IsShort typed removed }
{
    typed <= LONGEST_TEXT || typed <= removed as usize
}
