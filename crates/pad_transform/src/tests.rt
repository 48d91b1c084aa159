//! Rows of values that were worked out by hand.
ghost use Rattle.std.specs.Prelude.{◌≡◌, ◌+◌, ◌≤◌, length, IfSome, IsTrue};
ghost use Rattle.std.specs.List.{All};
ghost use Rattle.pad_patch.specs.declared.operation.Operation.{Operation};
ghost use Rattle.pad_patch.specs.Piece.{inserted};
ghost use Rattle.pad_transform.specs.Table.{SumsFitThrough};

use crate::laws::sums_fit_with_room;
use crate::patches::transform;
use crate::table::transform_op;
use pad_patch::{Operation, Operations, Patch, UnitStore, VecUnits};
use pad_text::{Name, Text};
use std::alloc::{AllocError, Global};
use std::test::Fail;

/// An offset, a number of units to remove, and what to insert.
type Row = (u32, u32, &'static str);

fn operation_of(alloc: Global, row: Row) -> Result<Operation, AllocError> {
    let (offset, remove, insert) = row;
    Ok(Operation {
        offset,
        remove,
        insert: Text::from_str(alloc, insert)?,
    })
}

fn patch_of(alloc: Global, rows: &[Row], before: Name) -> Result<Patch, AllocError> {
    let mut ops = Vec::new(alloc);
    for row in rows {
        ops.push(operation_of(alloc, *row)?)?;
    }
    Ok(Patch {
        ops: Operations::new(ops),
        before,
    })
}

/// Whether an operation is the one of this row.
fn is_row(alloc: Global, operation: &Operation, row: Row) -> Result<bool, AllocError> {
    let insert = operation.insert.to_string(alloc)?;
    Ok(operation.offset == row.0 && operation.remove == row.1 && insert.as_str() == row.2)
}

/// Whether one operation by another gives the wanted row.
fn gives(alloc: Global, operation: Row, by: Row, wanted: Option<Row>) -> Result<bool, AllocError> {
    let operation = operation_of(alloc, operation)?;
    let by = operation_of(alloc, by)?;
    if 1000 < operation.offset || 1000 < by.insert.len() {
        return Ok(false);
    }
    match (transform_op(operation, &by), wanted) {
        (Some(moved), Some(row)) => is_row(alloc, &moved, row),
        (None, None) => Ok(true),
        _ => Ok(false),
    }
}

#[test]
fn an_operation_by_another(rt: HostRuntime) -> Result<(), Fail> {
    let alloc = rt.alloc();
    let cases = [
        ((5, 0, "x"), (5, 0, "yy"), Some((5, 0, "x"))),
        ((2, 6, ""), (4, 0, "Q"), Some((2, 2, ""))),
        ((4, 3, "z"), (2, 4, "ab"), Some((4, 1, "z"))),
        ((9, 1, "k"), (2, 4, "ab"), Some((7, 1, "k"))),
        ((6, 0, "n"), (2, 4, "ab"), Some((4, 0, "n"))),
        ((4, 3, ""), (4, 2, ""), None),
        ((1, 2, "m"), (4, 1, ""), Some((1, 2, "m"))),
    ];
    for (operation, by, wanted) in cases {
        assert!(rt;
            gives(alloc, operation, by, wanted)?,
            "{operation:?} by {by:?}"
        );
    }
    Ok(())
}

/// How many units a patch inserts, where a number can say so.
fn inserted_units(patch: &Patch) -> Option<usize>
    ensures { IfSome result (λ units. units ≡ length (inserted patch.now)) }
{
    let mut units: usize = 0;
    for op in patch.ops.as_slice() {
        units = units.checked_add(op.insert.len())?;
    }
    Some(units)
}

/// Whether there is room for all that the other patch inserts.
fn has_room(patch: &Patch, by: &Patch) -> bool
    ensures { IsTrue result → All (SumsFitThrough by.now.ops) patch.now.ops }
{
    sums_fit_with_room();
    let Some(units) = inserted_units(by) else {
        return false;
    };
    units <= 1000 && patch.ops.as_slice().iter().all(|op| op.offset <= 1000)
}

/// The transformed patch, the text after the other one, and the text after both.
#[derive(Drop)]
struct Outcome {
    moved: Patch,
    changed: String,
    last: String,
}

/// A patch by another one on a text to which both can be applied.
fn transformed_on(
    alloc: Global,
    text: &str,
    patch: &[Row],
    by: &[Row],
) -> Result<Option<Outcome>, AllocError> {
    let text = VecUnits::from_text(alloc, &Text::from_str(alloc, text)?)?;
    let hash = text.hash(alloc)?;
    let patch = patch_of(alloc, patch, hash)?;
    let by = patch_of(alloc, by, hash)?;
    let Ok(()) = by.fits(&text, &hash) else {
        return Ok(None);
    };
    if !has_room(&patch, &by) {
        return Ok(None);
    }
    let changed = by.apply(alloc, &text)?;
    let after = changed.hash(alloc)?;
    let moved = transform(alloc, &patch, &by, &after)?;
    let Ok(()) = moved.fits(&changed, &after) else {
        return Ok(None);
    };
    let last = moved.apply(alloc, &changed)?;
    Ok(Some(Outcome {
        moved,
        changed: text_of(alloc, &changed)?,
        last: text_of(alloc, &last)?,
    }))
}

/// The whole text of a store.
fn text_of(alloc: Global, store: &VecUnits) -> Result<String, AllocError> {
    let text = store.read(alloc, 0, store.length())?;
    text.to_string(alloc)
}

/// Whether the operations of a patch are those of these rows.
fn are_rows(alloc: Global, patch: &Patch, rows: &[Row]) -> Result<bool, AllocError> {
    let ops = patch.ops.as_slice();
    if ops.len() != rows.len() {
        return Ok(false);
    }
    for (op, row) in ops.iter().zip(rows) {
        if !is_row(alloc, op, *row)? {
            return Ok(false);
        }
    }
    Ok(true)
}

#[test]
fn a_patch_by_another(rt: HostRuntime) -> Result<(), Fail> {
    let alloc = rt.alloc();
    let first = transformed_on(alloc, "hello", &[(2, 3, "!")], &[(0, 1, ""), (3, 0, "xx")])?;
    let first = first.expect(&rt, "both can be applied");
    assert_eq!(rt; first.changed.as_str(), "elxxlo");
    assert!(rt; are_rows(alloc, &first.moved, &[(1, 1, "!")])?);
    assert_eq!(rt; first.last.as_str(), "e!xxlo");

    let second = transformed_on(alloc, "hello", &[(0, 0, "A"), (4, 1, "")], &[(2, 2, "ZZ")])?;
    let second = second.expect(&rt, "both can be applied");
    assert_eq!(rt; second.changed.as_str(), "heZZo");
    assert!(rt; are_rows(alloc, &second.moved, &[(0, 0, "A"), (4, 1, "")])?);
    assert_eq!(rt; second.last.as_str(), "AheZZ");
    Ok(())
}
