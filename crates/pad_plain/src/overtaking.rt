//! How many messages overtake the chosen path, as one message more has come.

ghost use Rattle.std.specs.Prelude.{◌≡◌, List, [], ◌∷◌, ◌++◌, map, IfOk, All};
ghost use Rattle.pad_message.specs.declared.message.Message.{Message};
ghost use Rattle.pad_message.specs.Message.{name_of};
ghost use Rattle.pad_model.specs.Path.{NamesDiffer};
ghost use Rattle.pad_list.specs.Number.{NoRepeat, IsNumberOf};
ghost use Rattle.pad_model.specs.Choice.{Choice, Overtakes};
ghost use Rattle.pad_plain.specs.Inside.Walk.{AreParentPlaces};
ghost use Rattle.pad_plain.specs.Inside.Links.{IsCandidate, HasEveryLinked, AreLinkedOf};
ghost use Rattle.pad_plain.specs.Inside.Candidate.{names_of};
ghost use Rattle.pad_plain.specs.Inside.Chosen.{IsChosenAs};
ghost use Rattle.pad_plain.specs.Inside.Among.{IsSaidOf};

use crate::best::places_through;
use crate::candidate::{Candidate, is_among, is_better};
use crate::choice::Chosen;
use pad_message::Message;
use pad_model::Base;
use pad_text::Name;
use std::alloc::{AllocError, Global};

/// Whether the candidate's last message overtakes, as the newest message has come: it was not linked before, its path
/// does not run through the kept root, and betters the chosen path.
fn overtakes(
    alloc: Global,
    base: &Base,
    received: &[Message],
    names: &[Name],
    parents: &[Option<usize>],
    past: &[Candidate],
    before: &Chosen,
    candidate: &Candidate,
) -> Result<bool, AllocError>
    requires named { names.now ≡ map name_of received.now }
    requires parents { AreParentPlaces base.now received.now parents.now }
    requires past { NamesDiffer received.now → (earlier : List Message) (message : Message) → received.now ≡ earlier ++ message ∷ [] → AreLinkedOf base.now earlier past.now }
    requires is { IsCandidate base.now received.now candidate.now }
    ensures { IfOk result (λ answer. NamesDiffer received.now → (earlier : List Message) (message : Message) → received.now ≡ earlier ++ message ∷ [] → (choice : Choice) → IsChosenAs base.now earlier before.now choice
        → IsSaidOf received.now (Overtakes base.now earlier message choice) candidate.now answer) }
{
    if is_among(past, &candidate.name) {
        return Ok(false);
    }
    if !is_better(candidate, &before.path.tip) {
        return Ok(false);
    }
    let root = &before.root;
    let found = places_through(alloc, base, received, names, parents, root, candidate)?;
    Ok(found.is_none())
}

/// How many messages overtake, as the newest message has come.
pub(crate) fn count_overtaking(
    alloc: Global,
    base: &Base,
    received: &[Message],
    names: &[Name],
    parents: &[Option<usize>],
    past: &[Candidate],
    before: &Chosen,
    candidates: &[Candidate],
) -> Result<usize, AllocError>
    requires named { names.now ≡ map name_of received.now }
    requires parents { AreParentPlaces base.now received.now parents.now }
    requires past { NamesDiffer received.now → (earlier : List Message) (message : Message) → received.now ≡ earlier ++ message ∷ [] → AreLinkedOf base.now earlier past.now }
    requires each { All (IsCandidate base.now received.now) candidates.now }
    requires every { NamesDiffer received.now → HasEveryLinked base.now received.now candidates.now }
    requires once { NamesDiffer received.now → NoRepeat (names_of candidates.now) }
    ensures { IfOk result (λ more. NamesDiffer received.now → (earlier : List Message) (message : Message) → received.now ≡ earlier ++ message ∷ [] → (choice : Choice) → IsChosenAs base.now earlier before.now choice
        → IsNumberOf (Overtakes base.now earlier message choice) more) }
{
    let mut more = 0;
    for candidate in candidates {
        if overtakes(
            alloc, base, received, names, parents, past, before, candidate,
        )? {
            more += 1;
        }
    }
    Ok(more)
}
