//! From a message back to the base, by the places of the messages received.

ghost use Rattle.std.specs.Prelude.{◌≡◌, ℕ, ◌<◌, ◌≤◌, length, take, IfOk, IfSome, IsNone, All, Some, slice_get};
ghost use Rattle.pad_model.specs.Path.{IsLinked, NamesDiffer};
ghost use Rattle.pad_plain.specs.Inside.Walk.{messages_at, AreParentPlaces, IsParentPlace, IsAboveBase, LeadsTo};

use crate::messages::Messages;
use pad_message::Message;
use pad_model::Base;
use std::alloc::{AllocError, Global};

/// The place of the message's parent among the first messages. None if the parent is the base, or is not among them.
fn parent_place(base: &Base, messages: &Messages, count: usize, message: &Message) -> Option<usize>
    requires { count ≤ length messages.now }
    ensures { IsParentPlace base.now (take count messages.now) message.now result }
{
    if message.parent == base.name {
        return None;
    }
    match messages.place_of(&message.parent) {
        Some(place) if place < count => Some(place),
        _ => None,
    }
}

/// The place of each parent of the first messages.
pub(crate) fn parent_places(
    alloc: Global,
    base: &Base,
    messages: &Messages,
    count: usize,
) -> Result<Vec<Option<usize>>, AllocError>
    requires { count ≤ length messages.now }
    ensures { IfOk result (λ parents. AreParentPlaces base.now (take count messages.now) parents.items) }
{
    let mut parents = Vec::new(alloc);
    for message in messages.first(count) {
        parents.push(parent_place(base, messages, count, message))?;
    }
    Ok(parents)
}

/// The places of the path to the message at `last`, the newest first. None if that message waits.
pub(crate) fn walk(
    alloc: Global,
    base: &Base,
    received: &[Message],
    parents: &[Option<usize>],
    last: usize,
) -> Result<Option<Vec<usize>>, AllocError>
    requires parents { AreParentPlaces base.now received.now parents.now }
    requires within { last < length received.now }
    requires above { IsAboveBase base.now received.now last }
    ensures some { IfOk result (λ found. IfSome found (λ places. LeadsTo base.now received.now last (messages_at received.now places.items))) }
    ensures within { IfOk result (λ found. IfSome found (λ places. All (λ place. place < length received.now) places.items)) }
    ensures none { IfOk result (λ found. IsNone found → NamesDiffer received.now → (message : _) → slice_get received.now last ≡ Some message → ¬ (IsLinked base.now received.now message)) }
{
    let mut places = Vec::new(alloc);
    let mut at = last;
    for turn in 0..received.len() {
        places.push(at)?;
        match parents[at] {
            Some(place) => at = place,
            None if received[at].parent == base.name => return Ok(Some(places)),
            None => return Ok(None),
        }
    }
    Ok(None)
}
