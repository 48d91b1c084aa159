ghost use Rattle.std.specs.Prelude.{◌≡◌, ℕ, List, IfOk, IfSome};
ghost use Rattle.std.specs.List.{All};
ghost use Rattle.pad_text.specs.Text.{IsText};
ghost use Rattle.pad_text.specs.Hash.{document_hash};
ghost use Rattle.pad_patch.specs.Piece.{text_after, inserted};
ghost use Rattle.pad_patch.specs.Misfit.{Overlaps, CanApply};
ghost use Rattle.pad_transform.specs.Table.{through, transformed_all, SumsFitThrough};
ghost use Rattle.pad_transform.specs.Carried.{BothApply, FitsButLength, RemovesOnlyKept};

use crate::table::transform_op;
use pad_patch::{Operation, Operations, Patch};
use pad_text::Name;
use std::alloc::{AllocError, Global};

/// The patch on the text that the other one changed first, whose document hash is `after`. Each operation goes
/// through the other's operations from the last to the first, and is left out where it comes to nothing.
pub fn transform(
    alloc: Global,
    patch: &Patch,
    by: &Patch,
    after: &Name,
) -> Result<Patch, AllocError>
    requires sums { All (SumsFitThrough by.now.ops) patch.now.ops }
    ensures operations { IfOk result (λ moved. moved.ops ≡ transformed_all patch.now by.now) }
    ensures before { IfOk result (λ moved. moved.before ≡ after.now) }
    ensures insertions { IfOk result (λ moved. inserted moved ≡ inserted patch.now) }
    ensures ordered { IfOk result (λ moved. ((index : ℕ) → ¬ (Overlaps patch.now index))
        → (index : ℕ) → ¬ (Overlaps moved index)) }

    // For each text to which both patches can be applied.
    ensures applies { IfOk result (λ moved. (text : List ℕ) → BothApply patch.now by.now text
        → CanApply moved (text_after by.now text)) }
    ensures fits { IfOk result (λ moved. (text : List ℕ) → BothApply patch.now by.now text
        → after.now ≡ document_hash (text_after by.now text) → FitsButLength moved (text_after by.now text)) }
    ensures removals { IfOk result (λ moved. (text : List ℕ) → BothApply patch.now by.now text
        → RemovesOnlyKept moved patch.now by.now text) }
{
    let mut ops = Vec::new(alloc);
    for op in patch.ops.as_slice() {
        if let Some(moved) = moved_through(op.copy(alloc)?, by.ops.as_slice()) {
            ops.push(moved)?;
        }
    }
    Ok(Patch {
        ops: Operations::new(ops),
        before: *after,
    })
}

/// The operation by each of these, from the last to the first. Each that it went through inserts a text.
fn moved_through(operation: Operation, by: &[Operation]) -> Option<Operation>
    requires { SumsFitThrough by.now operation }
    ensures moved { result ≡ through by.now operation }
    ensures by_texts { IfSome result (λ _. All (λ other. IsText other.insert) by.now) }
{
    let mut moved = operation;
    for index in (0..by.len()).rev() {
        moved = transform_op(moved, &by[index])?;
    }
    Some(moved)
}
