//! Names that are marked or forgotten together.

ghost use Rattle.std.specs.Prelude.{◌≡◌, [], cond};
ghost use Rattle.std.specs.BTreeMap.{get};
ghost use Rattle.pad_text.specs.declared.name.Name.{Name};
ghost use Rattle.pad_graph.specs.Inside.Tables.{names_in, marked, is_among};
ghost use Rattle.pad_graph.specs.State.{name_cmp};

use crate::linking::Linking;
use crate::node::{Mark, Node};
use crate::tables::mark_one;
use pad_text::Name;
use std::collections::BTreeMap;

/// Marks the names of these linkings.
pub(crate) fn mark_all(nodes: &mut BTreeMap<Name, Node>, linkings: &[Linking], mark: Mark)
    ensures { (q : Name) → get name_cmp nodes.new q ≡ marked mark (get name_cmp nodes.old) linkings.now q }
{
    for linking in linkings {
        mark_one(nodes, *linking, mark);
    }
}

/// Removes the entries of these names.
pub(crate) fn forget_all(children: &mut BTreeMap<Name, Vec<Name>>, linkings: &[Linking])
    ensures { (q : Name) → names_in (get name_cmp children.new q) ≡ cond (is_among linkings.now q) [] (names_in (get name_cmp children.old q)) }
{
    for linking in linkings {
        let _ = children.remove(&linking.name);
    }
}
