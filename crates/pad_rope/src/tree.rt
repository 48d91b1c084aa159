//! The tree that a text is kept in.
ghost use Rattle.std.specs.Prelude.{◌≡◌, ℕ, ◌+◌, ◌^◌, ◌<◌, ◌≤◌, max, length, ◌++◌, IfOk};
ghost use Rattle.pad_text.specs.Text.{IsText};
ghost use Rattle.pad_rope.specs.Inside.Shape.{Shape, IsSound, DifferByAtMost};

use pad_text::Text;
use std::alloc::{AllocError, Global};
use std::marker::Model;
use std::rc::Rc;

/// The most units that one leaf of a rope holds.
pub const LEAF_SIZE: usize = 512;

/// A text in pieces that other trees may share. Contracts see its units and its height.
#[cycle(tree)]
#[derive(Drop)]
pub(crate) struct Tree {
    pub(crate) node: Node,
}

/// One leaf, or two sides with the number of their units and the height.
#[cycle(tree)]
#[derive(Drop)]
pub(crate) enum Node {
    Leaf(Text),
    Fork {
        left: Rc<Tree>,
        count: usize,
        height: u32,
        right: Rc<Tree>,
    },
}

impl Model for Tree {
    ghost use Rattle.pad_rope.specs.Inside.Shape.{Shape};

    ghost Value = { Shape };

    ghost use Rattle.pad_rope.specs.Inside.Tree.{shape_of, IsNode};

    ghost view = { λ tree. shape_of tree.node };

    ghost invariant = { λ tree. IsNode tree.node };

    ghost size = { λ shape. shape.height };

    ghost use Rattle.pad_rope.specs.Lemmas.TreeFalls.{sides_lower};

    ghost size_decreases = { λ a h. sides_lower a.node h };
}

impl Tree {
    /// The number of units.
    pub(crate) fn length(&self) -> usize
        ensures count { result ≡ length self.now.units }
        ensures sound { IsSound self.now }
    {
        match &self.node {
            Node::Leaf(text) => text.len(),
            Node::Fork { count, .. } => *count,
        }
    }

    /// The height: none for a leaf, and one more than that of the higher side otherwise.
    #[tactic(auto, using(crate::proofs::Heights::height_small))]
    pub(crate) fn height(&self) -> u32
        ensures height { result ≡ self.now.height }
        ensures small { result < 128 }
        ensures sound { IsSound self.now }
    {
        match &self.node {
            Node::Leaf(_) => 0,
            Node::Fork { height, .. } => *height,
        }
    }
}

/// A leaf of these units.
pub(crate) fn leaf(alloc: Global, text: Text) -> Result<Rc<Tree>, AllocError>
    requires { length text ≤ LEAF_SIZE }
    ensures units { IfOk result (λ tree. tree.value.units ≡ text) }
    ensures height { IfOk result (λ tree. tree.value.height ≡ 0) }
{
    let _units = text.as_units();
    let tree = Rc::new(
        alloc,
        Tree {
            node: Node::Leaf(text),
        },
    )?;
    Ok(tree)
}

/// Two sides of about one height, side by side.
pub(crate) fn fork(alloc: Global, left: Rc<Tree>, right: Rc<Tree>) -> Result<Rc<Tree>, AllocError>
    requires left_holds { 0 < length left.value.units }
    requires right_holds { 0 < length right.value.units }
    requires balanced { DifferByAtMost 1 left.value.height right.value.height }
    requires fits { length left.value.units + length right.value.units < 2 ^ 64 }
    ensures units { IfOk result (λ tree. tree.value.units ≡ left.value.units ++ right.value.units) }
    ensures height { IfOk result (λ tree. tree.value.height ≡ max left.value.height right.value.height + 1) }
{
    let count = left.length() + right.length();
    let height = left.height().max(right.height()) + 1;
    let tree = Rc::new(
        alloc,
        Tree {
            node: Node::Fork {
                left,
                count,
                height,
                right,
            },
        },
    )?;
    Ok(tree)
}
