//! What is chosen, message after message.

ghost use Rattle.std.specs.Prelude.{◌≡◌, ◌<◌, ◌+◌, ◌-◌, ◌^◌, List, [], length, map, take, IfOk, All};
ghost use Rattle.pad_message.specs.declared.message.Message.{Message};
ghost use Rattle.pad_message.specs.Message.{name_of};
ghost use Rattle.pad_model.specs.Path.{NamesDiffer};
ghost use Rattle.pad_plain.specs.Inside.Walk.{AreParentPlaces};
ghost use Rattle.pad_plain.specs.Inside.Links.{IsCandidate, HasEveryLinked};
ghost use Rattle.pad_plain.specs.Inside.Through.{IsRoot, IsPathThrough, IsBestFound};
ghost use Rattle.pad_plain.specs.Inside.Chosen.{IsChosen, IsWithin};

use crate::best::best_through;
use crate::cut::root_after;
use crate::links::{Links, linked_paths};
use crate::messages::Messages;
use crate::overtaking::count_overtaking;
use crate::path::{Path, Tip};
use pad_message::Message;
use pad_model::Base;
use pad_text::Name;
use std::alloc::{AllocError, Global};

/// What is chosen: the chosen path, the end of the path to the kept root, and how many messages overtook so far.
#[derive(Debug, Drop)]
pub(crate) struct Chosen {
    pub path: Path,
    pub root: Tip,
    pub overtaken: u64,
}

/// What is chosen before any message was received.
fn first_chosen(alloc: Global, base: &Base) -> Chosen
    ensures within { IsWithin 0 result }
    ensures chosen { IsChosen base.now [] result }
{
    let tip = Tip {
        name: base.name,
        height: 0,
    };
    Chosen {
        path: Path {
            tip,
            places: Vec::new(alloc),
        },
        root: tip,
        overtaken: 0,
    }
}

/// The path that is chosen now: the best through the kept root. If no message is the last of such a path, it is the base
/// alone, and was chosen before.
fn path_after(
    alloc: Global,
    base: &Base,
    received: &[Message],
    names: &[Name],
    links: Links,
    before: Path,
    root: &Tip,
) -> Result<Path, AllocError>
    requires named { names.now ≡ map name_of received.now }
    requires parents { AreParentPlaces base.now received.now links.parents.items }
    requires each { All (IsCandidate base.now received.now) links.candidates.items }
    requires every { NamesDiffer received.now → HasEveryLinked base.now received.now links.candidates.items }
    requires within { All (λ place. place < length received.now) before.places.items }
    ensures within { IfOk result (λ path. All (λ place. place < length received.now) path.places.items) }
    ensures best { IfOk result (λ path. NamesDiffer received.now → (through : List Message) → IsRoot base.now received.now root.now through
        → IsPathThrough base.now received.now through before → IsBestFound base.now received.now through path) }
{
    let parents = links.parents;
    let candidates = links.candidates;
    match best_through(
        alloc,
        base,
        received,
        names,
        parents.as_slice(),
        root,
        candidates,
    )? {
        Some(path) => Ok(path),
        None => Ok(before),
    }
}

/// What is chosen after the message at `newest` has come.
fn choice_after(
    alloc: Global,
    base: &Base,
    messages: &Messages,
    newest: usize,
    before: Chosen,
) -> Result<Chosen, AllocError>
    requires few { newest < length messages.now }
    requires small { newest < 2 ^ 64 - 1 }
    requires within { IsWithin newest before }
    requires chosen { NamesDiffer messages.now → IsChosen base.now (take newest messages.now) before }
    ensures within { IfOk result (IsWithin (newest + 1)) }
    ensures chosen { IfOk result (λ next. NamesDiffer messages.now → IsChosen base.now (take (newest + 1) messages.now) next) }
{
    let received = messages.first(newest + 1);
    let names = messages.names(newest + 1);
    let past = linked_paths(alloc, base, messages, newest)?;
    let links = linked_paths(alloc, base, messages, newest + 1)?;
    let parents = links.parents.as_slice();
    let old = past.candidates.as_slice();
    let new = links.candidates.as_slice();
    let more = count_overtaking(alloc, base, received, names, parents, old, &before, new)?;
    let Chosen {
        path,
        root,
        overtaken,
    } = before;
    let path = path_after(alloc, base, received, names, links, path, &root)?;
    let root = root_after(base, received, names, path.places.as_slice(), root);
    Ok(Chosen {
        path,
        root,
        overtaken: overtaken.saturating_add(more as u64),
    })
}

/// What is chosen after all of the messages.
pub(crate) fn choice(alloc: Global, base: &Base, messages: &Messages) -> Result<Chosen, AllocError>
    ensures within { IfOk result (IsWithin (length messages.now)) }
    ensures chosen { IfOk result (λ chosen. NamesDiffer messages.now → IsChosen base.now messages.now chosen) }
{
    let mut chosen = first_chosen(alloc, base);
    for newest in 0..messages.as_slice().len() {
        chosen = choice_after(alloc, base, messages, newest, chosen)?;
    }
    Ok(chosen)
}
