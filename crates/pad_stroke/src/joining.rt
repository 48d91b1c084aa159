ghost use Rattle.std.specs.Prelude.{◌≡◌, ◌+◌, ◌^◌, ◌<◌, IfOk};
ghost use Rattle.std.specs.List.{All};
ghost use Rattle.pad_stroke.specs.Through.{together, joined};

use pad_patch::{Operation, Operations};
use pad_text::{Text, texts_are_kept_by_cuts};
use std::alloc::{AllocError, Global};

/// The operations, those that touch joined.
pub(crate) fn join_touching(alloc: Global, ops: Operations) -> Result<Operations, AllocError>
    requires { All (λ operation. operation.remove < 2 ^ 32) (joined ops) }
    ensures { IfOk result (λ joints. joints ≡ joined ops) }
{
    let mut left = ops.into_vec().into_iter();
    let Some(mut last) = left.next() else {
        return Ok(Operations::new(Vec::new(alloc)));
    };
    let mut done = Vec::new(alloc);
    for op in left {
        if last.end() == op.start() {
            last = into_one(last, op)?;
        } else {
            done.push(std::mem::replace(&mut last, op))?;
        }
    }
    done.push(last)?;
    Ok(Operations::new(done))
}

/// Two operations, of which the first ends where the second starts, as one.
fn into_one(first: Operation, second: Operation) -> Result<Operation, AllocError>
    requires { first.remove + second.remove < 2 ^ 32 }
    ensures { IfOk result (λ one. one ≡ together first second) }
{
    texts_are_kept_by_cuts();
    let mut units = first.insert.into_units();
    units.extend_from_slice(second.insert.as_units())?;
    Ok(Operation {
        offset: first.offset,
        remove: first.remove + second.remove,
        insert: Text::from_units(units),
    })
}
