//! The message of the next item, and its content.
ghost use Rattle.std.specs.Prelude.{◌≡◌, ℕ, ◌+◌, ◌*◌, ◌<◌, ◌≤◌, ◌^◌, ◌==◌, [], ◌∷◌, length, IfOk, OnOk, if◌then◌else◌, slice_index};
ghost use Rattle.pad_message.specs.Content.{most_operations};
ghost use Rattle.pad_message.specs.Kind.{HasInterval};
ghost use Rattle.pad_message.specs.Message.{name_of};
ghost use Rattle.pad_rope.specs.Rope.{rope_units};
ghost use Rattle.pad_generator.specs.Contents.{content_of};
ghost use Rattle.pad_generator.specs.Item.{is_due, letter_of, message_on, message_with, operation_on, whole_text, words_on};
ghost use Rattle.pad_generator.specs.Inside.KeptItem.{item_of};

use crate::kept_item::KeptItem;
use crate::words::Words;
use pad_edge::Wire;
use pad_message::{Kind, Message, USUAL_INTERVAL};
use pad_patch::{Operation, Operations, Patch, UnitStore};
use pad_rope::Rope;
use pad_text::{Name, Text};
use std::alloc::{AllocError, Global};

/// How many units a text has at least where one may be removed.
const LONG_ENOUGH: usize = 64;

/// The letter that a word chooses, as a text.
fn letter(alloc: Global, choice: u32) -> Result<Text, AllocError>
    ensures { IfOk result (λ text. text ≡ letter_of choice ∷ []) }
{
    let mut units = Vec::new(alloc);
    units.push(97 + ((choice / 4) % 26) as u16)?;
    Ok(Text::from_units(units))
}

/// The operation of a patch on a text, by two words.
fn operation(alloc: Global, text: &Rope, choice: u32, spot: u32) -> Result<Operation, AllocError>
    requires { length (rope_units text.now) < 2 ^ 31 }
    ensures { IfOk result (λ operation. operation ≡ operation_on (rope_units text.now) choice spot) }
{
    let length = text.length() as u32;
    if text.length() >= LONG_ENOUGH && choice % 4 == 0 {
        return Ok(Operation {
            offset: spot % length,
            remove: 1,
            insert: Text::from_units(Vec::new(alloc)),
        });
    }
    Ok(Operation {
        offset: spot % (length + 1),
        remove: 0,
        insert: letter(alloc, choice)?,
    })
}

/// The operation that puts the whole text in its own place.
fn whole(alloc: Global, text: &Rope) -> Result<Operation, AllocError>
    requires { length (rope_units text.now) < 2 ^ 31 }
    ensures { IfOk result (λ operation. operation ≡ whole_text (rope_units text.now)) }
{
    let length = text.length();
    Ok(Operation {
        offset: 0,
        remove: length as u32,
        insert: text.read(alloc, 0, length)?,
    })
}

/// The message of a kind with this operation, on an item.
fn with_operation(
    alloc: Global,
    kind: Kind,
    operation: Operation,
    parent: &KeptItem,
) -> Result<Message, AllocError>
    ensures { IfOk result (λ message. message ≡ message_with kind operation (item_of parent.now)) }
{
    let mut ops = Vec::new(alloc);
    ops.push(operation)?;
    Ok(Message {
        kind,
        patch: Patch {
            ops: Operations::new(ops),
            before: parent.text.hash(alloc)?,
        },
        parent: parent.name,
    })
}

/// Whether the message on an item is a checkpoint.
fn is_due(parent: &KeptItem) -> bool
    requires { parent.now.height + 1 < 2 ^ 32 }
    ensures { result ≡ is_due (item_of parent.now) }
{
    (parent.height + 1) % u32::from(USUAL_INTERVAL) == 0
}

/// The message on an item, by the next words.
pub(crate) fn message_on(
    alloc: Global,
    words: &mut Words,
    parent: &KeptItem,
) -> Result<Message, AllocError>
    requires room { words.old.1 + 2 < 2 ^ 68 }
    requires short { length (item_of parent.now).text < 2 ^ 31 }
    requires height { parent.now.height + 1 < 2 ^ 32 }
    ensures message { IfOk result (λ message. message ≡ message_on words.old.0 words.old.1 (item_of parent.now)) }
    ensures words { OnOk result (words.new ≡ (words.old.0, words.old.1 + words_on (item_of parent.now))) }
{
    if is_due(parent) {
        let operation = whole(alloc, &parent.text)?;
        return with_operation(alloc, Kind::Checkpoint(USUAL_INTERVAL), operation, parent);
    }
    let choice = words.next();
    let spot = words.next();
    let operation = operation(alloc, &parent.text, choice, spot)?;
    with_operation(alloc, Kind::Patch, operation, parent)
}

/// The content of a message, and its name.
#[tactic(auto, unfolding(pad_message::specs::Message::name_of))]
pub(crate) fn spelled(alloc: Global, message: &Message) -> Result<(Wire, Name), AllocError>
    requires few { length message.now.patch.ops ≤ most_operations }
    requires interval { HasInterval message.now.kind }
    ensures content { IfOk result (λ spelled. spelled.0 ≡ content_of message.now) }
    ensures name { IfOk result (λ spelled. spelled.1 ≡ name_of message.now) }
{
    let text = message.text(alloc)?;
    let name = Name::of_bytes(text.as_str().as_bytes());
    if !message.kind.is_checkpoint() {
        return Ok((text, name));
    }
    let mut marked = String::from_str(alloc, "cp|")?;
    marked.push_str(text.as_str())?;
    Ok((Wire::new(marked), name))
}
