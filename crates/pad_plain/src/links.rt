//! The linked paths of the first messages received.

ghost use Rattle.std.specs.Prelude.{◌≡◌, ℕ, ◌<◌, ◌≤◌, length, take, IfOk, IfSome, IsNone, All, Some, slice_get};
ghost use Rattle.pad_message.specs.Message.{name_of};
ghost use Rattle.pad_model.specs.Path.{IsLinked, NamesDiffer};
ghost use Rattle.pad_plain.specs.Inside.Walk.{AreParentPlaces, IsAboveBase};
ghost use Rattle.pad_plain.specs.Inside.Links.{IsCandidate, AreLinks};

use crate::candidate::Candidate;
use crate::messages::Messages;
use crate::walk::{parent_places, walk};
use pad_message::Message;
use pad_model::Base;
use pad_text::Name;
use std::alloc::{AllocError, Global};
use std::cmp::Reverse;

/// The places of parents, the linked paths, one for each message that is linked, and how many messages wait.
#[derive(Drop)]
pub(crate) struct Links {
    pub parents: Vec<Option<usize>>,
    pub candidates: Vec<Candidate>,
    pub waiting: usize,
}

/// The linked path to the message with this name, at this place. None if that message waits.
fn candidate_at(
    alloc: Global,
    base: &Base,
    received: &[Message],
    parents: &[Option<usize>],
    name: &Name,
    place: usize,
) -> Result<Option<Candidate>, AllocError>
    requires parents { AreParentPlaces base.now received.now parents.now }
    requires within { place < length received.now }
    requires above { IsAboveBase base.now received.now place }
    requires named { (message : _) → slice_get received.now place ≡ Some message → name_of message ≡ name.now }
    ensures some { IfOk result (λ found. IfSome found (IsCandidate base.now received.now)) }
    ensures name { IfOk result (λ found. IfSome found (λ candidate. candidate.name ≡ name.now)) }
    ensures none { IfOk result (λ found. IsNone found → NamesDiffer received.now → (message : _) → slice_get received.now place ≡ Some message → ¬ (IsLinked base.now received.now message)) }
{
    let Some(path) = walk(alloc, base, received, parents, place)? else {
        return Ok(None);
    };
    Ok(Some(Candidate {
        height: Reverse(path.len()),
        name: *name,
        place,
    }))
}

/// The linked paths of the first messages, in the order of their last names.
pub(crate) fn linked_paths(
    alloc: Global,
    base: &Base,
    messages: &Messages,
    count: usize,
) -> Result<Links, AllocError>
    requires { count ≤ length messages.now }
    ensures parents { IfOk result (λ links. AreParentPlaces base.now (take count messages.now) links.parents.items) }
    ensures each { IfOk result (λ links. All (IsCandidate base.now (take count messages.now)) links.candidates.items) }
    ensures links { IfOk result (λ links. NamesDiffer (take count messages.now) → AreLinks base.now (take count messages.now) links) }
{
    let received = messages.first(count);
    let parents = parent_places(alloc, base, messages, count)?;
    let mut candidates = Vec::new(alloc);
    let mut waiting = 0;
    for (name, place) in messages.places() {
        if *name == base.name {
            continue;
        }
        if *place >= count {
            continue;
        }
        let found = candidate_at(alloc, base, received, parents.as_slice(), name, *place)?;
        let Some(candidate) = found else {
            waiting += 1;
            continue;
        };
        candidates.push(candidate)?;
    }
    Ok(Links {
        parents,
        candidates,
        waiting,
    })
}
