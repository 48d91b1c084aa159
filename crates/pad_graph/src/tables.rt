//! The tables of a graph, changed an entry at a time.

ghost use Rattle.std.specs.Prelude.{◌≡◌, ◌≤◌, ◌<◌, ◌-◌, IfSome, OnOk, OnErr, List, [], ◌∷◌, ◌++◌, Some, None};
ghost use Rattle.std.specs.BTreeMap.{get};
ghost use Rattle.pad_text.specs.declared.name.Name.{Name};
ghost use Rattle.pad_graph.specs.Inside.Tables.{names_in, IsPut, IsSame, HasChild, HasSameNames, height_in, AreMarked};
ghost use Rattle.pad_graph.specs.State.{name_cmp, marked_as};

use crate::linking::Linking;
use crate::node::{Mark, Node};
use crate::standing::Standing;
use pad_text::Name;
use std::alloc::{AllocError, Global};
use std::collections::BTreeMap;

/// How a name stands that is marked at this height.
fn standing_at(mark: Mark, height: u64) -> Standing
    ensures { result ≡ marked_as mark height }
{
    match mark {
        Mark::Waiting => Standing::Waiting,
        Mark::Linked => Standing::Linked(height),
        Mark::Gone => Standing::Gone(height),
    }
}

/// Marks the name of a linking. A name that is not in the table stays out of it.
pub(crate) fn mark_one(nodes: &mut BTreeMap<Name, Node>, linking: Linking, mark: Mark)
    ensures { AreMarked (get name_cmp nodes.old) (get name_cmp nodes.new) linking mark }
{
    if let Some(node) = nodes.get_mut(&linking.name) {
        node.standing = standing_at(mark, linking.height);
    }
}

/// The height of a name that is linked or gone; 0 for any other.
pub(crate) fn height_of(nodes: &BTreeMap<Name, Node>, name: &Name) -> u64
    ensures { result ≡ height_in (get name_cmp nodes.now name.now) }
{
    match nodes.get(name) {
        Some(node) => match node.standing {
            Standing::Linked(height) | Standing::Gone(height) => height,
            _ => 0,
        },
        None => 0,
    }
}

/// How many of those found are messages, where the lowest of them has this height. At height 0 stands the base, which is none.
pub(crate) fn without_base(height: u64, many: u64) -> u64
    requires { 1 ≤ many }
    ensures base { height ≡ 0 → result ≡ many - 1 }
    ensures message { 0 < height → result ≡ many }
{
    if height == 0 { many - 1 } else { many }
}

/// The parent of a name that is in the table; of any other the name itself.
pub(crate) fn parent_of(nodes: &BTreeMap<Name, Node>, name: &Name) -> Name
    ensures { IfSome (get name_cmp nodes.now name.now) (λ node. result ≡ node.parent) }
{
    match nodes.get(name) {
        Some(node) => node.parent,
        None => *name,
    }
}

/// Lends the names that have this parent.
pub(crate) fn names_of<'a>(children: &'a BTreeMap<Name, Vec<Name>>, parent: &Name) -> &'a [Name]
    ensures { result.now ≡ names_in (get name_cmp children.now parent.now) }
{
    match children.get(parent) {
        Some(names) => names.as_slice(),
        None => &[],
    }
}

/// Adds a name under its parent. The names are the same where there is no memory.
fn add_child(
    alloc: Global,
    children: &mut BTreeMap<Name, Vec<Name>>,
    parent: Name,
    name: Name,
) -> Result<(), AllocError>
    ensures ok { OnOk result (HasChild children.old children.new parent name) }
    ensures err { OnErr result (HasSameNames children.old children.new) }
{
    if let Some(names) = children.get_mut(&parent) {
        return match names.push(name) {
            Ok(()) => Ok(()),
            Err(_) => Err(AllocError),
        };
    }
    let mut names = Vec::with_capacity(alloc, 1)?;
    names.push(name)?;
    match children.insert(parent, names) {
        Ok(_) => Ok(()),
        Err(_) => Err(AllocError),
    }
}

/// Takes the name away that was added last under this parent.
pub(crate) fn remove_child(children: &mut BTreeMap<Name, Vec<Name>>, parent: &Name)
    ensures { (before : List Name) (name : Name) → names_in (get name_cmp children.old parent.now) ≡ before ++ name ∷ [] → HasChild children.new children.old parent.now name }
{
    if let Some(names) = children.get_mut(parent) {
        let _ = names.pop();
    }
}

/// Puts a new name into the tables. They hold the same where there is no memory.
pub(crate) fn hold(
    alloc: Global,
    nodes: &mut BTreeMap<Name, Node>,
    children: &mut BTreeMap<Name, Vec<Name>>,
    name: Name,
    node: Node,
) -> Result<(), AllocError>
    requires { get name_cmp nodes.old name ≡ None }
    ensures node { OnOk result (IsPut nodes.old nodes.new name (Some node)) }
    ensures child { OnOk result (HasChild children.old children.new node.parent name) }
    ensures same_nodes { OnErr result (IsSame nodes.old nodes.new) }
    ensures same_names { OnErr result (HasSameNames children.old children.new) }
{
    match nodes.insert(name, node) {
        Ok(_) => {}
        Err(_) => return Err(AllocError),
    }
    if add_child(alloc, children, node.parent, name).is_err() {
        let _ = nodes.remove(&name);
        return Err(AllocError);
    }
    Ok(())
}
