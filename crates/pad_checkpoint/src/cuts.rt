//! The cut of a path: its last but one checkpoint.

ghost use Rattle.std.specs.Prelude.{◌≡◌, ◌≤◌, ◌<◌, List, [], ◌∷◌, ◌++◌, length, take, slice_get, Some, MatchOption};
ghost use Rattle.pad_message.specs.declared.message.Message.{Message};
ghost use Rattle.pad_model.specs.declared.base.Base.{Base};
ghost use Rattle.pad_model.specs.Choice.{cut, higher};
ghost use Rattle.pad_checkpoint.specs.declared.path_mark.PathMark.{PathMark};
ghost use Rattle.pad_checkpoint.specs.Place.{place_of, marks_on};
ghost use Rattle.pad_checkpoint.specs.Cut.{checkpoints, last_but_one, cut_place};

use crate::marks::Marks;
use crate::path_mark::PathMark;
use crate::place::Place;

/// The index of the last checkpoint among the first marks of a path, where there is one.
fn last_checkpoint(marks: &[PathMark], end: usize) -> Option<usize>
    requires { end ≤ length marks.now }
    ensures { MatchOption result (checkpoints (take end marks.now) ≡ []) (λ at. (at < end) × ((mark : PathMark) × (slice_get marks.now at ≡ Some mark) × (checkpoints (take end marks.now) ≡ checkpoints (take at marks.now) ++ mark ∷ []))) }
{
    for at in (0..end).rev() {
        if marks[at].checkpoint {
            return Some(at);
        }
    }
    None
}

/// The last but one checkpoint of a path, where it has two. It reads the marks from the end back to that one.
pub(crate) fn last_but_one(marks: &[PathMark]) -> Option<PathMark>
    ensures { result ≡ last_but_one marks.now }
{
    let Some(last) = last_checkpoint(marks, marks.len()) else {
        return None;
    };
    let Some(at) = last_checkpoint(marks, last) else {
        return None;
    };
    Some(marks[at])
}

/// The cut of the path with these marks on top of the base: its last but one checkpoint, and the base where it has fewer than
/// two. Where a root stands in place of the base, it is the higher of the root and of the cut of the whole path.
pub fn cut(base: Place, path: &Marks) -> Place
    ensures place { result ≡ cut_place base path.now }
    ensures path { (begun : Base) (root above : List Message) → base ≡ place_of begun root → path.now ≡ marks_on begun root above
        → result ≡ place_of begun (higher root (cut (above ++ root))) }
{
    match last_but_one(path.as_slice()) {
        Some(mark) => mark.place,
        None => base,
    }
}
