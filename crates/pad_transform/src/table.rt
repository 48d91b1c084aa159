ghost use Rattle.std.specs.Prelude.{◌≡◌, ◌↔◌, IsNone, IsTrue};
ghost use Rattle.pad_text.specs.Text.{IsText};
ghost use Rattle.pad_patch.specs.Operation.{is_noop};
ghost use Rattle.pad_transform.specs.Table.{adjusted, transformed, SumsFit};

use pad_patch::Operation;

/// The operation on a text that the other one changed first, and none if it then removes and inserts nothing.
/// Its insertion moves, and no memory is taken.
pub fn transform_op(operation: Operation, by: &Operation) -> Option<Operation>
    requires sums { SumsFit operation by.now }
    ensures table { result ≡ transformed operation by.now }
    ensures none { IsNone result ↔ IsTrue (is_noop (adjusted operation by.now)) }
    ensures by_text { IsText by.now.insert }
{
    let inserted = by.insert.as_units().len();
    let (start, remove) = if by.end() < operation.start() {
        let moved = operation.start() + inserted - by.remove as usize;
        (moved, operation.remove as usize)
    } else if by.offset < operation.offset {
        let left = operation.end().saturating_sub(by.end());
        (by.start() + inserted, left)
    } else if operation.end() < by.start() {
        (operation.start(), operation.remove as usize)
    } else {
        (operation.start(), by.start() - operation.start())
    };
    let moved = Operation {
        offset: start as u32,
        remove: remove as u32,
        insert: operation.insert,
    };
    if moved.is_noop() {
        return None;
    }
    Some(moved)
}
