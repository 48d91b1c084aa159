//! Trees side by side.
ghost use Rattle.std.specs.Prelude.{◌≡◌, ◌+◌, ◌^◌, ◌<◌, max, length, ◌++◌, IfOk};
ghost use Rattle.pad_rope.specs.Inside.Shape.{DifferByAtMost, IsJoinHeight};

use crate::tree::{LEAF_SIZE, Node, Tree, fork, leaf};
use pad_text::Text;
use std::alloc::{AllocError, Global};
use std::rc::Rc;

/// Two texts, one after the other. Either may be empty.
pub(crate) fn append(
    alloc: Global,
    left: &Rc<Tree>,
    right: &Rc<Tree>,
) -> Result<Rc<Tree>, AllocError>
    requires fits { length left.now.value.units + length right.now.value.units < 2 ^ 64 }
    ensures units { IfOk result (λ tree. tree.value.units ≡ left.now.value.units ++ right.now.value.units) }
{
    if left.length() == 0 {
        return right.clone();
    }
    if right.length() == 0 {
        return left.clone();
    }
    join(alloc, left, right)
}

/// Two texts, one after the other, neither empty.
fn join(alloc: Global, left: &Rc<Tree>, right: &Rc<Tree>) -> Result<Rc<Tree>, AllocError>
    requires left_holds { 0 < length left.now.value.units }
    requires right_holds { 0 < length right.now.value.units }
    requires fits { length left.now.value.units + length right.now.value.units < 2 ^ 64 }
    ensures units { IfOk result (λ tree. tree.value.units ≡ left.now.value.units ++ right.now.value.units) }
    ensures height { IfOk result (λ tree. IsJoinHeight left.now.value.height right.now.value.height tree.value.height) }
{
    if left.height() > right.height() + 1 {
        let tree: &Tree = left;
        let Node::Fork {
            left: first,
            right: second,
            ..
        } = &tree.node
        else {
            unreachable!()
        };
        let joined = join(alloc, second, right)?;
        return settle(alloc, first.clone()?, joined);
    }
    if right.height() > left.height() + 1 {
        let tree: &Tree = right;
        let Node::Fork {
            left: first,
            right: second,
            ..
        } = &tree.node
        else {
            unreachable!()
        };
        let joined = join(alloc, left, first)?;
        return settle(alloc, joined, second.clone()?);
    }
    beside(alloc, left, right)
}

/// Two sides of about one height, in one leaf where that holds them.
fn beside(alloc: Global, left: &Rc<Tree>, right: &Rc<Tree>) -> Result<Rc<Tree>, AllocError>
    requires left_holds { 0 < length left.now.value.units }
    requires right_holds { 0 < length right.now.value.units }
    requires balanced { DifferByAtMost 1 left.now.value.height right.now.value.height }
    requires fits { length left.now.value.units + length right.now.value.units < 2 ^ 64 }
    ensures units { IfOk result (λ tree. tree.value.units ≡ left.now.value.units ++ right.now.value.units) }
    ensures height { IfOk result (λ tree. IsJoinHeight left.now.value.height right.now.value.height tree.value.height) }
{
    let front: &Tree = left;
    let back: &Tree = right;
    if let (Node::Leaf(first), Node::Leaf(second)) = (&front.node, &back.node) {
        if first.len() + second.len() <= LEAF_SIZE {
            let mut units = first.as_units().to_vec(alloc)?;
            units.extend_from_slice(second.as_units())?;
            return leaf(alloc, Text::from_units(units));
        }
    }
    fork(alloc, left.clone()?, right.clone()?)
}

/// Two sides, one of which may be higher by two.
fn settle(alloc: Global, left: Rc<Tree>, right: Rc<Tree>) -> Result<Rc<Tree>, AllocError>
    requires left_holds { 0 < length left.value.units }
    requires right_holds { 0 < length right.value.units }
    requires differ { DifferByAtMost 2 left.value.height right.value.height }
    requires fits { length left.value.units + length right.value.units < 2 ^ 64 }
    ensures units { IfOk result (λ tree. tree.value.units ≡ left.value.units ++ right.value.units) }
    ensures height { IfOk result (λ tree. IsJoinHeight left.value.height right.value.height tree.value.height) }
    ensures exact { IfOk result (λ tree. DifferByAtMost 1 left.value.height right.value.height
        → tree.value.height ≡ max left.value.height right.value.height + 1) }
{
    if left.height() > right.height() + 1 {
        return lower_left(alloc, &left, right);
    }
    if right.height() > left.height() + 1 {
        return lower_right(alloc, left, &right);
    }
    fork(alloc, left, right)
}

/// The left side is higher by two: its right part goes to the right.
fn lower_left(alloc: Global, left: &Rc<Tree>, right: Rc<Tree>) -> Result<Rc<Tree>, AllocError>
    requires right_holds { 0 < length right.value.units }
    requires two_higher { left.now.value.height ≡ right.value.height + 2 }
    requires fits { length left.now.value.units + length right.value.units < 2 ^ 64 }
    ensures units { IfOk result (λ tree. tree.value.units ≡ left.now.value.units ++ right.value.units) }
    ensures height { IfOk result (λ tree. IsJoinHeight left.now.value.height right.value.height tree.value.height) }
{
    let tree: &Tree = left;
    let Node::Fork {
        left: first,
        right: second,
        ..
    } = &tree.node
    else {
        unreachable!()
    };
    if first.height() >= second.height() {
        let lower = fork(alloc, second.clone()?, right)?;
        return fork(alloc, first.clone()?, lower);
    }
    let inner: &Tree = second;
    let Node::Fork {
        left: third,
        right: fourth,
        ..
    } = &inner.node
    else {
        unreachable!()
    };
    let front = fork(alloc, first.clone()?, third.clone()?)?;
    let back = fork(alloc, fourth.clone()?, right)?;
    fork(alloc, front, back)
}

/// The right side is higher by two: its left part goes to the left.
fn lower_right(alloc: Global, left: Rc<Tree>, right: &Rc<Tree>) -> Result<Rc<Tree>, AllocError>
    requires left_holds { 0 < length left.value.units }
    requires two_higher { right.now.value.height ≡ left.value.height + 2 }
    requires fits { length left.value.units + length right.now.value.units < 2 ^ 64 }
    ensures units { IfOk result (λ tree. tree.value.units ≡ left.value.units ++ right.now.value.units) }
    ensures height { IfOk result (λ tree. IsJoinHeight left.value.height right.now.value.height tree.value.height) }
{
    let tree: &Tree = right;
    let Node::Fork {
        left: first,
        right: second,
        ..
    } = &tree.node
    else {
        unreachable!()
    };
    if second.height() >= first.height() {
        let lower = fork(alloc, left, first.clone()?)?;
        return fork(alloc, lower, second.clone()?);
    }
    let inner: &Tree = first;
    let Node::Fork {
        left: third,
        right: fourth,
        ..
    } = &inner.node
    else {
        unreachable!()
    };
    let front = fork(alloc, left, third.clone()?)?;
    let back = fork(alloc, fourth.clone()?, second.clone()?)?;
    fork(alloc, front, back)
}
