//! The JSON value that spells a message.
ghost use Rattle.std.specs.Prelude.{◌≡◌, map, All, IfOk, OnOk};
ghost use Rattle.serde_json.specs.View.{view};
ghost use Rattle.pad_message.specs.Data.{message_data, operation_data, patch_data};
ghost use Rattle.pad_message.specs.Message.{IsMessage, IsOperation, IsPatch};

use crate::message::Message;
use pad_json::name_value;
use pad_patch::{Operation, Patch};
use serde_json::{Value, json};
use std::alloc::{AllocError, Global};

/// `[kind, patch, parent]`, or `[kind, patch, parent, interval]`.
pub(crate) fn message_value(alloc: Global, message: &Message) -> Result<Value, AllocError>
    ensures value { IfOk result (λ value. view value ≡ message_data message.now) }
    ensures typed { OnOk result (IsMessage message.now) }
{
    let patch = patch_value(alloc, &message.patch)?;
    let parent = name_value(alloc, &message.parent)?;
    let number = message.kind.number();
    match message.kind.written_interval() {
        Some(interval) => json!(in alloc; [number, patch, parent, interval]),
        None => json!(in alloc; [number, patch, parent]),
    }
}

/// The operations, and then the hash of the text before.
fn patch_value(alloc: Global, patch: &Patch) -> Result<Value, AllocError>
    ensures value { IfOk result (λ value. view value ≡ patch_data patch.now) }
    ensures typed { OnOk result (IsPatch patch.now) }
{
    let mut items = operation_values(alloc, patch.ops.as_slice())?;
    items.push(name_value(alloc, &patch.before)?)?;
    Ok(Value::Array(items))
}

/// The values of operations.
fn operation_values(alloc: Global, operations: &[Operation]) -> Result<Vec<Value>, AllocError>
    ensures values { IfOk result (λ values. map view values.items ≡ map operation_data operations.now) }
    ensures typed { OnOk result (All IsOperation operations.now) }
{
    let mut values = Vec::new(alloc);
    for operation in operations {
        values.push(operation_value(alloc, operation)?)?;
    }
    Ok(values)
}

/// `[offset, remove, insert]`.
fn operation_value(alloc: Global, operation: &Operation) -> Result<Value, AllocError>
    ensures value { IfOk result (λ value. view value ≡ operation_data operation.now) }
    ensures typed { OnOk result (IsOperation operation.now) }
{
    let insert = operation.insert.to_string(alloc)?;
    json!(in alloc; [operation.offset, operation.remove, insert])
}
