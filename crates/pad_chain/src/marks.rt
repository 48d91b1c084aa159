//! The marks of the messages of a branch.

ghost use Rattle.std.specs.Prelude.{◌≡◌, ◌+◌, ◌<◌, ◌^◌, ◌++◌, length, IfOk, OnOk, OnErr};
ghost use Rattle.pad_chain.specs.Inside.Marks.{mark_at, marks_from};

use pad_branch::Undo;
use pad_checkpoint::{Marks, PathMark, Place};
use std::alloc::{AllocError, Global};

/// The mark of the message that an undo takes back, at this height.
fn mark_at(undo: &Undo, height: u64) -> PathMark
    ensures { result ≡ mark_at undo.now height }
{
    PathMark {
        place: Place {
            name: undo.after.name,
            height,
        },
        checkpoint: undo.kind.is_checkpoint(),
    }
}

/// Adds the marks of these messages, the oldest first, which stand on one of this height.
fn add_marks(marks: &mut Vec<PathMark>, low: u64, undos: &[Undo]) -> Result<(), AllocError>
    requires few { low + length undos.now + 1 < 2 ^ 64 }
    ensures { OnOk result (marks.new.items ≡ marks.old.items ++ marks_from low undos.now) }
{
    let mut height = low;
    for undo in undos {
        height += 1;
        marks.push(mark_at(undo, height))?;
    }
    Ok(())
}

/// The marks of a branch of these messages and then those, the oldest first, which stand on a root of this height.
pub(crate) fn path_marks(
    alloc: Global,
    low: u64,
    stay: &[Undo],
    come: &[Undo],
) -> Result<Marks, AllocError>
    requires few { low + length stay.now + length come.now + 1 < 2 ^ 64 }
    ensures { IfOk result (λ marks. marks ≡ marks_from low (stay.now ++ come.now)) }
{
    let mut marks = Vec::new(alloc);
    add_marks(&mut marks, low, stay)?;
    add_marks(&mut marks, low + stay.len() as u64, come)?;
    Ok(Marks::new(marks))
}
