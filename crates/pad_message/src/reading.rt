//! What a JSON value spells.
ghost use Rattle.std.specs.Prelude.{◌≡◌, ◌≢◌, ℕ, ◌≤◌, List, [], ◌∷◌, ◌++◌, length, map, All, None, Some, IfErr, IfNone, IfOk, IfSome};
ghost use Rattle.serde_json.specs.Data.{Data, string};
ghost use Rattle.serde_json.specs.View.{view};
ghost use Rattle.pad_text.specs.Text.{IsText, utf8};
ghost use Rattle.pad_text.specs.declared.name.Name.{Name};
ghost use Rattle.pad_patch.specs.declared.operation.Operation.{Operation};
ghost use Rattle.pad_patch.specs.declared.patch.Patch.{Patch};
ghost use Rattle.pad_message.specs.declared.kind.Kind.{Kind};
ghost use Rattle.pad_message.specs.declared.message.Message.{Message};
ghost use Rattle.pad_message.specs.Data.{MayFollow, SpellsMessage, kind_number, operation_data, patch_data};
ghost use Rattle.pad_json.specs.Data.{array_of, whole};
ghost use Rattle.pad_json.specs.Name.{IsName, name_data};
ghost use Rattle.pad_message.specs.Content.{most_operations};
ghost use Rattle.pad_message.specs.Kind.{HasInterval, IsInterval};
ghost use Rattle.pad_message.specs.Message.{IsMessage, IsOperation, IsPatch};

use crate::content::MOST_OPERATIONS;
use crate::kind::{Kind, USUAL_INTERVAL, is_interval};
use crate::message::Message;
use crate::read_refused::ReadRefused;
use pad_json::{name_from, number_from};
use pad_patch::{Operation, Operations, Patch};
use pad_text::Text;
use serde_json::Value;
use std::alloc::Global;

/// The interval of a checkpoint, by what comes after the parent. It is the usual one where nothing comes.
fn interval_from(after: &[Value]) -> Option<u16>
    ensures some { IfSome result (λ interval. MayFollow (Kind.Checkpoint interval) (map view after.now)) }
    ensures within { IfSome result IsInterval }
    ensures none { IfNone result ((interval : ℕ) → IsInterval interval
        → ¬ (MayFollow (Kind.Checkpoint interval) (map view after.now))) }
{
    if after.is_empty() {
        return Some(USUAL_INTERVAL);
    }
    if after.len() != 1 {
        return None;
    }
    let interval = u16::try_from(number_from(&after[0])?).ok()?;
    if is_interval(interval) {
        Some(interval)
    } else {
        None
    }
}

/// A kind, by its number and what comes after the parent.
fn kind_from(number: &Value, after: &[Value]) -> Option<Kind>
    ensures some { IfSome result (λ kind. view number.now ≡ whole (kind_number kind)) }
    ensures follows { IfSome result (λ kind. MayFollow kind (map view after.now)) }
    ensures within { IfSome result HasInterval }
    ensures none { IfNone result ((kind : Kind) → HasInterval kind → MayFollow kind (map view after.now)
        → view number.now ≢ whole (kind_number kind)) }
{
    match number_from(number)? {
        2 if after.is_empty() => Some(Kind::Patch),
        4 => Some(Kind::Checkpoint(interval_from(after)?)),
        _ => None,
    }
}

/// The first three values of an array, and those after them.
fn first_three_from(value: &Value) -> Option<(&Value, &Value, &Value, &[Value])>
    ensures some { IfSome result (λ parts. view value.now
        ≡ array_of (view parts.0.now ∷ view parts.1.now ∷ view parts.2.now ∷ map view parts.3.now)) }
    ensures none { IfNone result ((first second third : Data) (after : List Data)
        → view value.now ≢ array_of (first ∷ second ∷ third ∷ after)) }
{
    let [first, second, third, after @ ..] = value.as_array()?.as_slice() else {
        return None;
    };
    Some((first, second, third, after))
}

/// The three values of an array of three.
fn three_from(value: &Value) -> Option<(&Value, &Value, &Value)>
    ensures some { IfSome result (λ parts. view value.now
        ≡ array_of (view parts.0.now ∷ view parts.1.now ∷ view parts.2.now ∷ [])) }
    ensures none { IfNone result ((first second third : Data)
        → view value.now ≢ array_of (first ∷ second ∷ third ∷ [])) }
{
    let [first, second, third] = value.as_array()?.as_slice() else {
        return None;
    };
    Some((first, second, third))
}

/// A text: any string, since the strings of JSON values hold no lone surrogate.
fn text_from(alloc: Global, value: &Value) -> Result<Text, ReadRefused>
    ensures ok { IfOk result (λ text. view value.now ≡ string (utf8 text)) }
    ensures typed { IfOk result IsText }
    ensures unreadable { IfErr result (λ refused. refused ≡ ReadRefused.Unreadable
        → (text : List ℕ) → view value.now ≢ string (utf8 text)) }
{
    let Value::String(text) = value else {
        return Err(ReadRefused::Unreadable);
    };
    Ok(Text::from_str(alloc, text.as_str())?)
}

/// `[offset, remove, insert]`.
fn operation_from(alloc: Global, value: &Value) -> Result<Operation, ReadRefused>
    ensures ok { IfOk result (λ operation. view value.now ≡ operation_data operation) }
    ensures typed { IfOk result IsOperation }
    ensures unreadable { IfErr result (λ refused. refused ≡ ReadRefused.Unreadable
        → (operation : Operation) → IsOperation operation → view value.now ≢ operation_data operation) }
{
    let Some((offset, remove, insert)) = three_from(value) else {
        return Err(ReadRefused::Unreadable);
    };
    let (Some(offset), Some(remove)) = (number_from(offset), number_from(remove)) else {
        return Err(ReadRefused::Unreadable);
    };
    let insert = text_from(alloc, insert)?;
    Ok(Operation {
        offset,
        remove,
        insert,
    })
}

/// The last value of an array, and those before it.
fn last_from(value: &Value) -> Option<(&Value, &[Value])>
    ensures some { IfSome result (λ parts. view value.now
        ≡ array_of (map view parts.1.now ++ view parts.0.now ∷ [])) }
    ensures none { IfNone result ((front : List Data) (last : Data)
        → view value.now ≢ array_of (front ++ last ∷ [])) }
{
    value.as_array()?.as_slice().split_last()
}

/// Operations, one a value.
fn operations_from(alloc: Global, values: &[Value]) -> Result<Operations, ReadRefused>
    ensures ok { IfOk result (λ operations. map view values.now ≡ map operation_data operations) }
    ensures typed { IfOk result (All IsOperation) }
    ensures unreadable { IfErr result (λ refused. refused ≡ ReadRefused.Unreadable
        → (operations : List Operation) → All IsOperation operations
        → map view values.now ≢ map operation_data operations) }
{
    let mut operations = Vec::with_capacity(alloc, values.len())?;
    for value in values {
        operations.push(operation_from(alloc, value)?)?;
    }
    Ok(Operations::new(operations))
}

/// `[operation, .., before]`.
fn patch_from(alloc: Global, value: &Value) -> Result<Patch, ReadRefused>
    ensures ok { IfOk result (λ patch. view value.now ≡ patch_data patch) }
    ensures typed { IfOk result IsPatch }
    ensures few { IfOk result (λ patch. length patch.ops ≤ most_operations) }
    ensures unreadable { IfErr result (λ refused. refused ≡ ReadRefused.Unreadable
        → (patch : Patch) → IsPatch patch → length patch.ops ≤ most_operations
        → view value.now ≢ patch_data patch) }
{
    let Some((before, operations)) = last_from(value) else {
        return Err(ReadRefused::Unreadable);
    };
    let Some(before) = name_from(before) else {
        return Err(ReadRefused::Unreadable);
    };
    if operations.len() > MOST_OPERATIONS {
        return Err(ReadRefused::Unreadable);
    }
    let ops = operations_from(alloc, operations)?;
    Ok(Patch { ops, before })
}

/// `[kind, patch, parent]`, or `[kind, patch, parent, interval]`.
pub(crate) fn message_from(alloc: Global, value: &Value) -> Result<Message, ReadRefused>
    ensures ok { IfOk result (SpellsMessage (view value.now)) }
    ensures typed { IfOk result IsMessage }
    ensures few { IfOk result (λ message. length message.patch.ops ≤ most_operations) }
    ensures interval { IfOk result (λ message. HasInterval message.kind) }
    ensures unreadable { IfErr result (λ refused. refused ≡ ReadRefused.Unreadable
        → (message : Message) → IsMessage message → length message.patch.ops ≤ most_operations
        → HasInterval message.kind → ¬ (SpellsMessage (view value.now) message)) }
{
    let Some((kind, patch, parent, after)) = first_three_from(value) else {
        return Err(ReadRefused::Unreadable);
    };
    let Some(kind) = kind_from(kind, after) else {
        return Err(ReadRefused::Unreadable);
    };
    let Some(parent) = name_from(parent) else {
        return Err(ReadRefused::Unreadable);
    };
    let patch = patch_from(alloc, patch)?;
    Ok(Message {
        kind,
        patch,
        parent,
    })
}
