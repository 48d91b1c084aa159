//! What hangs on a message that is not sound: no path ends in it either.

ghost use Rattle.std.specs.Prelude.{◌≡◌, ◌≤◌, List, length, IfOk};
ghost use Rattle.std.specs.BTreeMap.{get};
ghost use Rattle.pad_message.specs.declared.message.Message.{Message};
ghost use Rattle.pad_model.specs.declared.base.Base.{Base};
ghost use Rattle.pad_model.specs.Path.{IsLinkedPath, NamesDiffer};
ghost use Rattle.pad_graph.specs.State.{name_cmp, state_of};
ghost use Rattle.pad_branch.specs.Pathless.{KnowsPathless, pathless_in};
ghost use Rattle.pad_branch.specs.Choice.{AreLinkedOn};
ghost use Rattle.pad_branch.specs.Inside.Passing.{MarksNames, MarksChildren, PassesOn, IsLinkedThrough};

use crate::held::Held;
use pad_graph::Graph;
use pad_text::Name;
use std::alloc::{AllocError, Global};
use std::collections::{BTreeMap, BTreeSet};

/// Whether no path ends in the message with this name, as far as is known.
pub(crate) fn is_pathless(
    messages: &BTreeMap<Name, Held>,
    more: &BTreeSet<Name>,
    name: &Name,
) -> bool
    ensures { result ≡ pathless_in (get name_cmp messages.now) more.now name.now }
{
    let marked = match messages.get(name) {
        Some(held) => held.pathless,
        None => false,
    };
    marked || more.contains(name)
}

/// Names that were marked, and those of the last level that was added.
#[derive(Drop)]
struct Level {
    pathless: BTreeSet<Name>,
    names: Vec<Name>,
}

/// Marks these names, and adds those that had no mark to the level.
fn with_names(
    messages: &BTreeMap<Name, Held>,
    names: &[Name],
    level: Level,
) -> Result<Level, AllocError>
    ensures { IfOk result (λ next. MarksNames (get name_cmp messages.now) names.now level.pathless level.names.items next.pathless next.names.items) }
{
    let mut pathless = level.pathless;
    let mut next = level.names;
    for child in names {
        if is_pathless(messages, &pathless, child) {
            continue;
        }
        pathless.insert(*child)?;
        next.push(*child)?;
    }
    Ok(Level {
        pathless,
        names: next,
    })
}

/// Marks the children of these, and answers those that had no mark.
fn next_level(
    alloc: Global,
    messages: &BTreeMap<Name, Held>,
    graph: &Graph,
    over: &[Name],
    pathless: BTreeSet<Name>,
) -> Result<Level, AllocError>
    ensures { IfOk result (λ next. MarksChildren (get name_cmp messages.now) (state_of graph.now).children over.now pathless next.pathless next.names.items) }
{
    let mut level = Level {
        pathless,
        names: Vec::new(alloc),
    };
    for parent in over {
        level = with_names(messages, graph.children(parent), level)?;
    }
    Ok(level)
}

/// What is known pathless once the message with this name was found not to be sound: it, and all that hangs on it above the
/// root. No linked path has more messages than `longest`.
pub(crate) fn pass_on(
    alloc: Global,
    messages: &BTreeMap<Name, Held>,
    graph: &Graph,
    pathless: BTreeSet<Name>,
    name: &Name,
    longest: u64,
) -> Result<BTreeSet<Name>, AllocError>
    ensures { IfOk result (λ after. (base : Base) (received below : List Message) → NamesDiffer received → KnowsPathless base received below (pathless_in (get name_cmp messages.now) pathless) → AreLinkedOn base received below (state_of graph.now).children
        → IsLinkedThrough base received below name.now → ((path : List Message) → IsLinkedPath base received path → length path ≤ longest)
        → PassesOn base received below name.now (pathless_in (get name_cmp messages.now) pathless) (pathless_in (get name_cmp messages.now) after)) }
{
    let mut pathless = pathless;
    pathless.insert(*name)?;
    let mut names = Vec::new(alloc);
    names.push(*name)?;
    for turn in 0..longest {
        if names.is_empty() {
            return Ok(pathless);
        }
        let next = next_level(alloc, messages, graph, names.as_slice(), pathless)?;
        pathless = next.pathless;
        names = next.names;
    }
    Ok(pathless)
}
