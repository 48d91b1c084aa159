//! The best path through the kept root: of the linked paths through it the best one that is sound.

ghost use Rattle.std.specs.Prelude.{◌≡◌, ◌<◌, ◌≤◌, ◌-◌, List, length, drop, map, IfOk, IfSome, IsNone, All, MatchBool};
ghost use Rattle.pad_message.specs.declared.message.Message.{Message};
ghost use Rattle.pad_message.specs.Message.{name_of};
ghost use Rattle.pad_model.specs.Path.{last_name, IsLinkedPath, NamesDiffer};
ghost use Rattle.pad_model.specs.Choice.{RunsThrough};
ghost use Rattle.pad_plain.specs.Inside.Walk.{messages_at, AreParentPlaces, LeadsTo};
ghost use Rattle.pad_plain.specs.Inside.Links.{IsCandidate, HasEveryLinked};
ghost use Rattle.pad_plain.specs.Inside.Through.{IsRoot, IsThroughTo, IsSoundTo, NoPathThrough, IsBestFound, OnlyTheBase};

use crate::candidate::Candidate;
use crate::evaluate::evaluate;
use crate::path::{Path, Tip};
use crate::walk::walk;
use pad_message::Message;
use pad_model::Base;
use pad_patch::VecUnits;
use pad_text::Name;
use std::alloc::{AllocError, Global};

/// The name at this height of the path at these places. At height 0 it is the base's.
fn name_at(
    base: &Base,
    received: &[Message],
    names: &[Name],
    places: &[usize],
    height: usize,
) -> Name
    requires named { names.now ≡ map name_of received.now }
    requires within { All (λ place. place < length received.now) places.now }
    requires high { height ≤ length places.now }
    ensures { result ≡ last_name base.now (messages_at received.now (drop (length places.now - height) places.now)) }
{
    if height == 0 {
        return base.name;
    }
    names[places[places.len() - height]]
}

/// Whether the path at these places runs through the kept root.
fn runs_through(
    base: &Base,
    received: &[Message],
    names: &[Name],
    places: &[usize],
    root: &Tip,
) -> bool
    requires named { names.now ≡ map name_of received.now }
    requires within { All (λ place. place < length received.now) places.now }
    requires linked { IsLinkedPath base.now received.now (messages_at received.now places.now) }
    ensures { NamesDiffer received.now → (path : List Message) → IsRoot base.now received.now root.now path
        → MatchBool result (RunsThrough path (messages_at received.now places.now)) (¬ (RunsThrough path (messages_at received.now places.now))) }
{
    if root.height > places.len() {
        return false;
    }
    name_at(base, received, names, places, root.height) == root.name
}

/// The places of the path to the candidate's last message, if it runs through the kept root. None if it does not.
pub(crate) fn places_through(
    alloc: Global,
    base: &Base,
    received: &[Message],
    names: &[Name],
    parents: &[Option<usize>],
    root: &Tip,
    candidate: &Candidate,
) -> Result<Option<Vec<usize>>, AllocError>
    requires named { names.now ≡ map name_of received.now }
    requires parents { AreParentPlaces base.now received.now parents.now }
    requires is { IsCandidate base.now received.now candidate.now }
    ensures some { IfOk result (λ found. IfSome found (λ places. LeadsTo base.now received.now candidate.now.place (messages_at received.now places.items))) }
    ensures within { IfOk result (λ found. IfSome found (λ places. All (λ place. place < length received.now) places.items)) }
    ensures through { IfOk result (λ found. NamesDiffer received.now → (path : List Message) → IsRoot base.now received.now root.now path
        → IsThroughTo base.now received.now path candidate.now.place found) }
{
    let Some(places) = walk(alloc, base, received, parents, candidate.place)? else {
        return Ok(None);
    };
    if !runs_through(base, received, names, places.as_slice(), root) {
        return Ok(None);
    }
    Ok(Some(places))
}

/// The path to the candidate's last message, if it runs through the kept root and is sound. None otherwise.
fn sound_path(
    alloc: Global,
    base: &Base,
    received: &[Message],
    names: &[Name],
    parents: &[Option<usize>],
    root: &Tip,
    candidate: &Candidate,
) -> Result<Option<Path>, AllocError>
    requires named { names.now ≡ map name_of received.now }
    requires parents { AreParentPlaces base.now received.now parents.now }
    requires is { IsCandidate base.now received.now candidate.now }
    ensures some { IfOk result (λ found. IfSome found (IsSoundTo base.now received.now candidate.now)) }
    ensures within { IfOk result (λ found. IfSome found (λ path. All (λ place. place < length received.now) path.places.items)) }
    ensures through { IfOk result (λ found. IfSome found (λ path. NamesDiffer received.now → (through : List Message) → IsRoot base.now received.now root.now through
        → RunsThrough through (messages_at received.now path.places.items))) }
    ensures none { IfOk result (λ found. IsNone found → NamesDiffer received.now → (through : List Message) → IsRoot base.now received.now root.now through
        → NoPathThrough base.now received.now through candidate.now.place) }
{
    let found = places_through(alloc, base, received, names, parents, root, candidate)?;
    let Some(places) = found else {
        return Ok(None);
    };
    let Some(_text) = evaluate::<VecUnits>(alloc, base, received, places.as_slice())? else {
        return Ok(None);
    };
    let tip = Tip {
        name: candidate.name,
        height: places.len(),
    };
    Ok(Some(Path { tip, places }))
}

/// The best path through the kept root: the better candidate is tried first, and the first that is sound is the best.
/// None if no message is the last of such a path.
pub(crate) fn best_through(
    alloc: Global,
    base: &Base,
    received: &[Message],
    names: &[Name],
    parents: &[Option<usize>],
    root: &Tip,
    mut candidates: Vec<Candidate>,
) -> Result<Option<Path>, AllocError>
    requires named { names.now ≡ map name_of received.now }
    requires parents { AreParentPlaces base.now received.now parents.now }
    requires each { All (IsCandidate base.now received.now) candidates.items }
    requires every { NamesDiffer received.now → HasEveryLinked base.now received.now candidates.items }
    ensures within { IfOk result (λ found. IfSome found (λ path. All (λ place. place < length received.now) path.places.items)) }
    ensures best { IfOk result (λ found. IfSome found (λ path. NamesDiffer received.now → (through : List Message) → IsRoot base.now received.now root.now through
        → IsBestFound base.now received.now through path)) }
    ensures none { IfOk result (λ found. IsNone found → NamesDiffer received.now → (through : List Message) → IsRoot base.now received.now root.now through
        → OnlyTheBase base.now received.now through) }
{
    candidates.sort()?;
    for candidate in &candidates {
        let found = sound_path(alloc, base, received, names, parents, root, candidate)?;
        if let Some(path) = found {
            return Ok(Some(path));
        }
    }
    Ok(None)
}
