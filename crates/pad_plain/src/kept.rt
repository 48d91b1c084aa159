//! How many messages are kept above the root.

ghost use Rattle.std.specs.Prelude.{◌≡◌, ◌≤◌, List, length, map, IfOk, All};
ghost use Rattle.pad_message.specs.declared.message.Message.{Message};
ghost use Rattle.pad_message.specs.Message.{name_of};
ghost use Rattle.pad_model.specs.Path.{NamesDiffer};
ghost use Rattle.pad_list.specs.Number.{NoRepeat, IsNumberOf};
ghost use Rattle.pad_model.specs.Count.{IsKept};
ghost use Rattle.pad_plain.specs.Inside.Walk.{AreParentPlaces};
ghost use Rattle.pad_plain.specs.Inside.Links.{IsCandidate, HasEveryLinked};
ghost use Rattle.pad_plain.specs.Inside.Candidate.{names_of};
ghost use Rattle.pad_plain.specs.Inside.Through.{IsRoot};
ghost use Rattle.pad_plain.specs.Inside.Among.{IsSaidOf};

use crate::best::places_through;
use crate::candidate::Candidate;
use crate::path::Tip;
use pad_message::Message;
use pad_model::Base;
use pad_text::Name;
use std::alloc::{AllocError, Global};

/// Whether the candidate's path runs through the kept root and ends after it.
fn is_kept(
    alloc: Global,
    base: &Base,
    received: &[Message],
    names: &[Name],
    parents: &[Option<usize>],
    root: &Tip,
    candidate: &Candidate,
) -> Result<bool, AllocError>
    requires named { names.now ≡ map name_of received.now }
    requires parents { AreParentPlaces base.now received.now parents.now }
    requires is { IsCandidate base.now received.now candidate.now }
    ensures { IfOk result (λ answer. NamesDiffer received.now → (path : List Message) → IsRoot base.now received.now root.now path
        → IsSaidOf received.now (IsKept base.now received.now path) candidate.now answer) }
{
    if candidate.height.0 <= root.height {
        return Ok(false);
    }
    let found = places_through(alloc, base, received, names, parents, root, candidate)?;
    Ok(found.is_some())
}

/// How many messages are linked through the kept root, and are not the root.
pub(crate) fn count_kept(
    alloc: Global,
    base: &Base,
    received: &[Message],
    names: &[Name],
    parents: &[Option<usize>],
    root: &Tip,
    candidates: &[Candidate],
) -> Result<usize, AllocError>
    requires named { names.now ≡ map name_of received.now }
    requires parents { AreParentPlaces base.now received.now parents.now }
    requires each { All (IsCandidate base.now received.now) candidates.now }
    requires every { NamesDiffer received.now → HasEveryLinked base.now received.now candidates.now }
    requires once { NamesDiffer received.now → NoRepeat (names_of candidates.now) }
    ensures few { IfOk result (λ kept. kept ≤ length candidates.now) }
    ensures kept { IfOk result (λ kept. NamesDiffer received.now → (path : List Message) → IsRoot base.now received.now root.now path
        → IsNumberOf (IsKept base.now received.now path) kept) }
{
    let mut kept = 0;
    for candidate in candidates {
        if is_kept(alloc, base, received, names, parents, root, candidate)? {
            kept += 1;
        }
    }
    Ok(kept)
}
