ghost use Rattle.std.specs.Prelude.{◌≡◌, ◌+◌, ◌<◌, ◌↔◌, length, map, All, IfOk, IfErr, IsTrue, OnOk};
ghost use Rattle.pad_patch.specs.Misfit.{longest_text};
ghost use Rattle.pad_stroke.specs.Mark.{marks_of};
ghost use Rattle.pad_stroke.specs.InTurn.{mark_from, NamesUnit};
ghost use Rattle.pad_stroke.specs.Edit.{IsAllowed, IsCause};

use crate::edit_refused::EditRefused;
use crate::mark::Mark;
use pad_merge::Origin;
use pad_patch::{LONGEST_TEXT, Operation};
use pad_text::Text;
use std::alloc::{AllocError, Global};

/// Whether an operation on the shown text is allowed.
pub(crate) fn allow(shown: &Text, op: &Operation) -> Result<(), EditRefused>
    ensures allowed { OnOk result (IsAllowed shown.now op.now) }
    ensures cause { IfErr result (IsCause shown.now op.now) }
{
    if shown.len() < op.end() {
        return Err(EditRefused::Range);
    }
    if shown.cuts_pair(op.start()) || shown.cuts_pair(op.end()) {
        return Err(EditRefused::Pair);
    }
    let kept = shown.len() - op.remove as usize;
    if grows_too_long(kept, op.remove as usize, op.insert.len()) {
        return Err(EditRefused::TooLong);
    }
    Ok(())
}

/// Whether a text is too long with so many units kept and so many inserted, and longer than with those removed.
fn grows_too_long(kept: usize, removed: usize, inserted: usize) -> bool
    ensures { IsTrue result ↔ ((longest_text < kept + inserted) × (removed < inserted)) }
{
    removed < inserted && (LONGEST_TEXT < kept || LONGEST_TEXT - kept < inserted)
}

/// The marks of so many units that one edit types.
pub(crate) fn marks_typed(alloc: Global, stroke: u64, count: usize) -> Result<Vec<Mark>, AllocError>
    ensures { IfOk result (λ marks. marks.items ≡ marks_of stroke count) }
{
    let mut marks = Vec::new(alloc);
    for index in 0..count {
        marks.push(Mark {
            stroke,
            index: index as u64,
        })?;
    }
    Ok(marks)
}

/// The marks of the units of a merge, which come from two works with these marks.
pub(crate) fn marks_from(
    alloc: Global,
    from: &[Origin],
    first: &[Mark],
    second: &[Mark],
) -> Result<Vec<Mark>, AllocError>
    requires { All (NamesUnit (length first.now) (length second.now)) from.now }
    ensures { IfOk result (λ marks. marks.items ≡ map (mark_from first.now second.now) from.now) }
{
    let mut marks = Vec::new(alloc);
    for origin in from {
        marks.push(mark_at(*origin, first, second))?;
    }
    Ok(marks)
}

/// The mark of a unit that comes from one of two works with these marks.
fn mark_at(origin: Origin, first: &[Mark], second: &[Mark]) -> Mark
    requires { NamesUnit (length first.now) (length second.now) origin }
    ensures { result ≡ mark_from first.now second.now origin }
{
    match origin {
        Origin::First(place) => first[place as usize],
        Origin::Second(place) => second[place as usize],
    }
}
