//! The table of the messages that are kept or wait, changed an entry at a time.

ghost use Rattle.std.specs.Prelude.{◌≡◌, ◌≤◌, List, ◌∷◌, OnOk, OnErr, Some, None, false};
ghost use Rattle.std.specs.BTreeMap.{get};
ghost use Rattle.pad_text.specs.declared.name.Name.{Name};
ghost use Rattle.pad_graph.specs.State.{name_cmp, state_of, last_added};
ghost use Rattle.pad_graph.specs.declared.graph.TheConstants.{MOST_NAMES};
ghost use Rattle.pad_graph.specs.Chain.{Link};
ghost use Rattle.pad_graph.specs.Graph.{Stands};
ghost use Rattle.pad_branch.specs.Held.{marks};
ghost use Rattle.pad_chain.specs.Inside.Tables.{IsPut, IsSame, AreLetGo, IsMarked, AreMarked, IsNoted, AreNoted};

use pad_branch::Held;
use pad_graph::{Graph, Linking, Standing};
use pad_message::Message;
use pad_text::Name;
use std::alloc::AllocError;
use std::collections::{BTreeMap, BTreeSet};

/// Holds a message at its name, without a mark. The table holds the same where there is no memory.
pub(crate) fn hold(
    messages: &mut BTreeMap<Name, Held>,
    name: Name,
    message: Message,
) -> Result<(), AllocError>
    ensures ok { OnOk result (IsPut (get name_cmp messages.old) (get name_cmp messages.new) name (Some (record { message = message; pathless = false }))) }
    ensures err { OnErr result (IsSame (get name_cmp messages.old) (get name_cmp messages.new)) }
{
    let held = Held {
        message,
        pathless: false,
    };
    match messages.insert(name, held) {
        Ok(_) => Ok(()),
        Err(_) => Err(AllocError),
    }
}

/// Lets the messages go that have these names.
pub(crate) fn let_go(messages: &mut BTreeMap<Name, Held>, linkings: &[Linking])
    ensures { AreLetGo (get name_cmp messages.old) (get name_cmp messages.new) linkings.now }
{
    for linking in linkings {
        let _ = messages.remove(&linking.name);
    }
}

/// Marks what is held at a name.
fn mark(messages: &mut BTreeMap<Name, Held>, name: Name)
    ensures { IsMarked (get name_cmp messages.old) (get name_cmp messages.new) name }
{
    if let Some(held) = messages.get_mut(&name) {
        held.pathless = true;
    }
}

/// Marks the messages that have these names.
pub(crate) fn mark_all(messages: &mut BTreeMap<Name, Held>, linkings: &[Linking])
    ensures { AreMarked (get name_cmp messages.old) (get name_cmp messages.new) linkings.now }
{
    for linking in linkings {
        mark(messages, linking.name);
    }
}

/// Marks what is held at a name, if the name is linked through the root.
fn mark_linked(graph: &Graph, messages: &mut BTreeMap<Name, Held>, name: Name)
    ensures { IsNoted (get name_cmp messages.old) (get name_cmp messages.new) name (state_of graph.now) }
{
    if let Standing::Linked(_) = graph.standing(&name) {
        mark(messages, name);
    }
}

/// Marks the messages that have these names, where those are linked through the root.
pub(crate) fn note(graph: &Graph, messages: &mut BTreeMap<Name, Held>, names: BTreeSet<Name>)
    ensures { AreNoted (get name_cmp messages.old) (get name_cmp messages.new) names (state_of graph.now) }
{
    let mut names = names;
    while let Some(name) = names.pop_first() {
        mark_linked(graph, messages, name);
    }
}

/// Whether what is held at a name is marked.
pub(crate) fn has_mark(messages: &BTreeMap<Name, Held>, name: &Name) -> bool
    ensures { result ≡ marks (get name_cmp messages.now) name.now }
{
    match messages.get(name) {
        Some(held) => held.pathless,
        None => false,
    }
}

/// Holds a message whose name the graph knows since the last `add`. Where there is no memory the table holds the same, and the name is
/// taken back from the graph.
pub(crate) fn hold_added(
    graph: &mut Graph,
    messages: &mut BTreeMap<Name, Held>,
    name: Name,
    message: Message,
) -> Result<(), AllocError>
    requires { last_added (state_of graph.old) ≡ Some name }
    ensures held { OnOk result (IsPut (get name_cmp messages.old) (get name_cmp messages.new) name (Some (record { message = message; pathless = false }))) }
    ensures graph { OnOk result (graph.new ≡ graph.old) }
    ensures same { OnErr result (IsSame (get name_cmp messages.old) (get name_cmp messages.new)) }
    ensures undone { OnErr result ((base : Name) (link : Link) (links : List Link) (root : List Name) → Stands (state_of graph.old) base (link ∷ links) root → Stands (state_of graph.new) base links root) }
{
    match hold(messages, name, message) {
        Ok(()) => Ok(()),
        Err(error) => {
            graph.undo_add(&name);
            Err(error)
        }
    }
}

/// A graph knows no more names than it may: the bound is this function's contract.
pub(crate) fn knows_few(graph: &Graph)
    ensures { (state_of graph.now).known ≤ MOST_NAMES }
{
    let _ = graph.known();
}
