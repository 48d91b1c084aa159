ghost use Rattle.std.specs.Prelude.{◌≡◌, ◌≤◌, length, filter, position, take, All};
ghost use Rattle.pad_text.specs.Text.{IsText};
ghost use Rattle.pad_patch.specs.Piece.{insertions};
ghost use Rattle.pad_stroke.specs.Strip.{same_mark, stays, staying, thinned, is_needed};

use crate::mark::Mark;
use pad_patch::Operation;
use pad_text::{Text, texts_are_kept_by_cuts};
use std::alloc::Global;

/// Takes the marks that are gone out of a list of marks.
pub(crate) fn strip_marks(marks: &mut Vec<Mark>, gone: &[Mark])
    ensures { marks.new.items ≡ filter (stays gone.now) marks.old.items }
{
    let kept = keep_in_front(marks.as_mut_slice(), gone);
    marks.truncate(kept);
}

/// Moves the marks that are not gone to the front, and tells how many they are.
fn keep_in_front(marks: &mut [Mark], gone: &[Mark]) -> usize
    ensures { take result marks.new ≡ filter (stays gone.now) marks.old }
{
    let mut next = 0;
    let mut kept = 0;
    for index in 0..marks.len() {
        let mark = marks[index];
        if mark_stays(&mark, gone, &mut next) {
            marks[kept] = mark;
            kept += 1;
        }
    }
    kept
}

/// The operations without the inserted units whose marks are gone, and without those operations that are empty then.
/// Each inserted unit has its mark.
pub(crate) fn strip_operations(
    mut ops: Vec<Operation>,
    marks: &[Mark],
    gone: &[Mark],
) -> Vec<Operation>
    requires marked { length (insertions ops.items) ≤ length marks.now }
    requires texts { All (λ operation. IsText operation.insert) (thinned gone.now ops.items marks.now) }
    ensures { result.items ≡ filter is_needed (thinned gone.now ops.items marks.now) }
{
    let alloc = *ops.allocator();
    thin(alloc, ops.as_mut_slice(), marks, gone);
    leave_out_empty(&mut ops);
    ops
}

/// Whether a mark is not gone. The search starts at the place `next` and goes round once. Where it finds the mark,
/// `next` is then the place behind it: marks that stand in the same order in two works are found at once.
fn mark_stays(mark: &Mark, gone: &[Mark], next: &mut usize) -> bool
    ensures { result ≡ stays gone.now mark.now }
{
    let (front, back) = gone.split_at(gone.len().min(*next));
    match place_of(mark, back) {
        Some(place) => {
            *next = front.len() + place + 1;
            false
        }
        None => match place_of(mark, front) {
            Some(place) => {
                *next = place + 1;
                false
            }
            None => true,
        },
    }
}

/// Where a mark stands first.
fn place_of(mark: &Mark, marks: &[Mark]) -> Option<usize>
    ensures { result ≡ position (λ other. same_mark other mark.now) marks.now }
{
    marks.iter().position(|other| other == mark)
}

/// Leaves out the operations that remove and insert nothing.
fn leave_out_empty(ops: &mut Vec<Operation>)
    ensures { ops.new.items ≡ filter is_needed ops.old.items }
{
    ops.retain(|op| !op.is_noop());
}

/// Takes the inserted units whose marks are gone out of the operations.
fn thin(alloc: Global, ops: &mut [Operation], marks: &[Mark], gone: &[Mark])
    requires marked { length (insertions ops.old) ≤ length marks.now }
    requires texts { All (λ operation. IsText operation.insert) (thinned gone.now ops.old marks.now) }
    ensures { ops.new ≡ thinned gone.now ops.old marks.now }
{
    let mut left = marks;
    let mut next = 0;
    for op in ops.iter_mut() {
        let count = op.insert.len();
        thin_operation(alloc, op, left, gone, &mut next);
        left = left.split_at(count).1;
    }
}

/// Takes the inserted units whose marks are gone out of an operation. It takes no memory: an empty text has none.
fn thin_operation(
    alloc: Global,
    op: &mut Operation,
    marks: &[Mark],
    gone: &[Mark],
    next: &mut usize,
)
    requires marked { length op.old.insert ≤ length marks.now }
    requires text { IsText (staying gone.now op.old.insert marks.now) }
    ensures { op.new ≡ record op.old { insert = staying gone.now op.old.insert marks.now } }
{
    texts_are_kept_by_cuts();
    let insert = std::mem::replace(&mut op.insert, Text::from_units(Vec::new(alloc)));
    op.insert = Text::from_units(staying_units(insert.into_units(), marks, gone, next));
}

/// The units whose marks are not gone. The search for their marks starts at the place `next`, and leaves there where it
/// ends.
fn staying_units(mut units: Vec<u16>, marks: &[Mark], gone: &[Mark], next: &mut usize) -> Vec<u16>
    requires { length units.items ≤ length marks.now }
    ensures { result.items ≡ staying gone.now units.items marks.now }
{
    let mut kept = 0;
    for index in 0..units.len() {
        if mark_stays(&marks[index], gone, next) {
            units[kept] = units[index];
            kept += 1;
        }
    }
    units.truncate(kept);
    units
}
