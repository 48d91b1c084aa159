ghost use Rattle.std.specs.Prelude.{◌≡◌, ◌↔◌, ℕ, ◌+◌, ◌<◌, ◌≤◌, ◌^◌, length, All, IsTrue, slice_get};
ghost use Rattle.std.specs.Option.{option_map};
ghost use Rattle.pad_patch.specs.Misfit.{Overlaps, EndsAfter};
ghost use Rattle.pad_patch.specs.Piece.{end_of, length_after};
ghost use Rattle.pad_merge.specs.UnitSource.{sources_of};
ghost use Rattle.pad_merge.specs.Merge.{CanMerge, CanMergeBack, CutsInserted, IsTurned, AreTurned};
ghost use Rattle.pad_merge.specs.Inside.Meeting.{new_of, MeetsFirst};

use pad_patch::{Operation, Patch};
use pad_text::{is_first_of_pair, is_second_of_pair};

/// Whether two patches can be merged, the first one on a text of `len` units and the second one on the text after it. It
/// takes no memory.
pub fn can_merge(p: &Patch, q: &Patch, len: usize) -> bool
    ensures { IsTrue result ↔ CanMerge p.now q.now len }
{
    if p.first_overlap().is_some() {
        return false;
    }
    if p.first_past(len).is_some() {
        return false;
    }
    if q.first_overlap().is_some() {
        return false;
    }
    meet_first(p, q, len)
}

/// Whether two patches can be merged where `back` has just taken the first one back: whether, beside what `can_merge`
/// asks, `back` has the ranges of the first one's inverse. It takes no memory.
pub fn can_merge_back(p: &Patch, back: &Patch, q: &Patch, len: usize) -> bool
    ensures { IsTrue result ↔ CanMergeBack p.now back.now q.now len }
{
    if !can_merge(p, q, len) {
        return false;
    }
    are_turned(p, back, len)
}

/// Whether the operations of a patch have the ranges of those that take the first patch's back.
fn are_turned(p: &Patch, back: &Patch, len: usize) -> bool
    requires ordered { (index : ℕ) → ¬ (Overlaps p.now index) }
    requires inside { (index : ℕ) → ¬ (EndsAfter p.now len index) }
    ensures { IsTrue result ↔ AreTurned 0 0 p.now.ops back.now.ops }
{
    let mut left = back.ops.as_slice();
    let mut inserted = 0;
    let mut removed = 0;
    for op in p.ops.as_slice() {
        let Some((first, rest)) = left.split_first() else {
            return false;
        };
        if !is_turned(op, first, inserted, removed) {
            return false;
        }
        inserted += op.insert.len();
        removed += op.remove as usize;
        left = rest;
    }
    left.is_empty()
}

/// Whether an operation has the range of the one that takes the other back, where those before it have inserted and
/// removed so many units.
fn is_turned(op: &Operation, back: &Operation, inserted: usize, removed: usize) -> bool
    requires below { removed ≤ op.now.offset }
    requires small { inserted < 2 ^ 33 }
    ensures turned { IsTrue result ↔ IsTurned inserted removed op.now back.now }
    ensures bounded { IsTrue result → inserted + length op.now.insert < 2 ^ 33 }
{
    if back.offset as usize != op.offset as usize + inserted - removed {
        return false;
    }
    if back.remove as usize != op.insert.len() {
        return false;
    }
    back.insert.len() == op.remove as usize
}

/// Whether each operation of the second patch ends within the text after the first one, and cuts no pair that it inserts.
fn meet_first(p: &Patch, q: &Patch, len: usize) -> bool
    requires ordered { (index : ℕ) → ¬ (Overlaps p.now index) }
    requires inside { (index : ℕ) → ¬ (EndsAfter p.now len index) }
    ensures { IsTrue result ↔ All (MeetsFirst p.now len) q.now.ops }
{
    for op in q.ops.as_slice() {
        if !meets_first(p, len, op) {
            return false;
        }
    }
    true
}

/// Whether an operation ends within the text after a patch, and cuts no pair that the patch inserts.
fn meets_first(p: &Patch, len: usize, op: &Operation) -> bool
    requires ordered { (index : ℕ) → ¬ (Overlaps p.now index) }
    requires inside { (index : ℕ) → ¬ (EndsAfter p.now len index) }
    ensures { IsTrue result ↔ MeetsFirst p.now len op.now }
{
    if !is_within(p, len, op.end()) {
        return false;
    }
    if cuts_inserted(p, len, op.start()) {
        return false;
    }
    !cuts_inserted(p, len, op.end())
}

/// Whether a place is at most the length of the text after a patch.
fn is_within(patch: &Patch, len: usize, at: usize) -> bool
    requires ordered { (index : ℕ) → ¬ (Overlaps patch.now index) }
    requires inside { (index : ℕ) → ¬ (EndsAfter patch.now len index) }
    ensures { IsTrue result ↔ (at ≤ length_after patch.now len) }
{
    if at == 0 {
        return true;
    }
    unit_after(patch, len, at - 1).is_some()
}

/// Whether a place of the text after a patch stands between the two units of a pair that the patch inserts.
fn cuts_inserted(patch: &Patch, len: usize, at: usize) -> bool
    requires ordered { (index : ℕ) → ¬ (Overlaps patch.now index) }
    requires inside { (index : ℕ) → ¬ (EndsAfter patch.now len index) }
    ensures { IsTrue result ↔ CutsInserted patch.now len at }
{
    if at == 0 {
        return false;
    }
    match (unit_after(patch, len, at - 1), unit_after(patch, len, at)) {
        (Some(Some(first)), Some(Some(second))) => is_first_of_pair(first)
            && is_second_of_pair(second),
        _ => false,
    }
}

/// The unit at a place of the text after a patch of a text of `len` units, if it is a new one; and none if the text ends
/// there.
fn unit_after(patch: &Patch, len: usize, at: usize) -> Option<Option<u16>>
    requires ordered { (index : ℕ) → ¬ (Overlaps patch.now index) }
    requires inside { (index : ℕ) → ¬ (EndsAfter patch.now len index) }
    ensures { result ≡ option_map new_of (slice_get (sources_of patch.now len) at) }
{
    let mut left = at;
    let mut place = 0;
    for op in patch.ops.as_slice() {
        let kept = op.start() - place;
        if left < kept {
            return Some(None);
        }
        left -= kept;
        let inserted = op.insert.as_units();
        if left < inserted.len() {
            return Some(Some(inserted[left]));
        }
        left -= inserted.len();
        place = op.end();
    }
    if left < len - place { Some(None) } else { None }
}
