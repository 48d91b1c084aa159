//! Trees of new texts, and changes of trees.
ghost use Rattle.std.specs.Prelude.{◌≡◌, ◌+◌, ◌^◌, ◌<◌, ◌≤◌, length, IfOk, []};
ghost use Rattle.pad_text.specs.Text.{IsText, CutsPair};
ghost use Rattle.pad_patch.specs.UnitStore.{IsRange, replaced};

use crate::join::append;
use crate::tree::{LEAF_SIZE, Node, Tree, leaf};
use pad_text::{Text, is_first_of_pair, is_second_of_pair};
use std::alloc::{AllocError, Global};
use std::rc::Rc;

/// A tree of these units.
pub(crate) fn build(alloc: Global, units: &[u16]) -> Result<Rc<Tree>, AllocError>
    requires { IsText units.now }
    ensures { IfOk result (λ tree. tree.value.units ≡ units.now) }
{
    if units.len() <= LEAF_SIZE {
        let units = units.to_vec(alloc)?;
        return leaf(alloc, Text::from_units(units));
    }
    let at = middle(units);
    let left = build(alloc, &units[..at])?;
    let right = build(alloc, &units[at..])?;
    append(alloc, &left, &right)
}

/// About the middle of a long text, where no pair is cut.
fn middle(units: &[u16]) -> usize
    requires { LEAF_SIZE < length units.now }
    ensures inside { (0 < result) × (result < length units.now) }
    ensures whole { ¬ (CutsPair units.now result) }
{
    let at = units.len() / 2;
    if is_first_of_pair(units[at - 1]) && is_second_of_pair(units[at]) {
        at + 1
    } else {
        at
    }
}

/// The text with other units in place of those from one place to another.
pub(crate) fn replace(
    alloc: Global,
    tree: &Rc<Tree>,
    from: usize,
    to: usize,
    insert: &[u16],
) -> Result<Rc<Tree>, AllocError>
    requires range { IsRange tree.now.value.units from to }
    requires insert { IsText insert.now }
    requires fits { length tree.now.value.units + length insert.now < 2 ^ 64 }
    ensures { IfOk result (λ changed. changed.value.units ≡ replaced from to insert.now tree.now.value.units) }
{
    if from == 0 && to == tree.length() {
        return build(alloc, insert);
    }
    let inside: &Tree = tree;
    match &inside.node {
        Node::Leaf(text) => replace_in_leaf(alloc, text, from, to, insert),
        Node::Fork { left, right, .. } => {
            let seam = left.length();
            if to <= seam {
                let changed = replace(alloc, left, from, to, insert)?;
                return append(alloc, &changed, right);
            }
            if seam <= from {
                let changed = replace(alloc, right, from - seam, to - seam, insert)?;
                return append(alloc, left, &changed);
            }
            let front = replace(alloc, left, from, seam, insert)?;
            let back = replace(alloc, right, 0, to - seam, &[])?;
            append(alloc, &front, &back)
        }
    }
}

/// The same in one leaf.
fn replace_in_leaf(
    alloc: Global,
    text: &Text,
    from: usize,
    to: usize,
    insert: &[u16],
) -> Result<Rc<Tree>, AllocError>
    requires range { IsRange text.now from to }
    requires insert { IsText insert.now }
    ensures { IfOk result (λ changed. changed.value.units ≡ replaced from to insert.now text.now) }
{
    let units = text.as_units();
    let mut changed = units[..from].to_vec(alloc)?;
    changed.extend_from_slice(insert)?;
    changed.extend_from_slice(&units[to..])?;
    build(alloc, changed.as_slice())
}
