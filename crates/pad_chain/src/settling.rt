//! How the root of a chain moves, and its branch with it.

ghost use Rattle.std.specs.Prelude.{◌≡◌, ◌≢◌, ◌≤◌, ◌<◌, ◌+◌, ◌^◌, List, [], ◌++◌, true, length, reverse, take, Some, OnOk, OnErr};
ghost use Rattle.std.specs.BTreeMap.{get};
ghost use Rattle.pad_text.specs.declared.name.Name.{Name};
ghost use Rattle.pad_message.specs.declared.message.Message.{Message};
ghost use Rattle.pad_graph.specs.Chain.{Link};
ghost use Rattle.pad_graph.specs.State.{name_cmp, state_of};
ghost use Rattle.pad_model.specs.declared.base.Base.{Base};
ghost use Rattle.pad_checkpoint.specs.Settled.{IsRooted, KeepsLinks};
ghost use Rattle.pad_branch.specs.declared.held.Held.{Held};
ghost use Rattle.pad_branch.specs.Branch.{IsTrunk};
ghost use Rattle.pad_chain.specs.Inside.Marks.{marks_from, NoneIsCheckpoint};
ghost use Rattle.pad_chain.specs.Inside.Receiving.{rising, IsRaised};
ghost use Rattle.pad_chain.specs.Inside.Tables.{IsSame, AreLetGo};

use crate::marks::path_marks;
use crate::tables::let_go;
use pad_branch::{Branch, Held, Undo};
use pad_checkpoint::{Pruning, roots_rise_to_cuts_above};
use pad_graph::Graph;
use pad_patch::UnitStore;
use pad_text::Name;
use std::alloc::{AllocError, Global};
use std::collections::BTreeMap;

/// Whether none of these takes back a checkpoint.
fn no_checkpoint(undos: &[Undo]) -> bool
    ensures { result ≡ true → NoneIsCheckpoint (reverse undos.now) }
{
    for undo in undos {
        if undo.kind.is_checkpoint() {
            return false;
        }
    }
    true
}

/// Moves the root up to the cut of a path, but in a chain that never truncates. The path has the first `keep` messages of the
/// branch, and then those that come. It only looks for the cut where a checkpoint comes: else the root stays. Graph and root are
/// unchanged where there is no memory.
pub(crate) fn settle<S: UnitStore>(
    alloc: Global,
    graph: &mut Graph,
    pruning: &mut Pruning,
    branch: &Branch<S>,
    whole: bool,
    keep: usize,
    come: &[Undo],
) -> Result<(), AllocError>
    requires keep { keep ≤ length branch.now.branch.undos }
    requires few { branch.now.branch.low + keep + length come.now + 1 < 2 ^ 64 }
    ensures raised { OnOk result ((base : Base) (received root path : List Message) (links : List Link)
        → IsRooted base received root path links pruning.old.root (marks_from branch.now.branch.low (take keep branch.now.branch.undos ++ come.now)) (state_of graph.old)
        → (NoneIsCheckpoint (reverse come.now) → rising whole path ≡ [])
        → IsRaised base links root (rising whole path) pruning.new.root (state_of graph.new)) }
    ensures links { OnOk result (KeepsLinks (state_of graph.old) (state_of graph.new)) }
    ensures overtaken { pruning.new.overtaken ≡ pruning.old.overtaken }
    ensures same_root { OnErr result (pruning.new ≡ pruning.old) }
    ensures same_graph { OnErr result (state_of graph.new ≡ state_of graph.old) }
{
    roots_rise_to_cuts_above();
    if whole {
        return Ok(());
    }
    if no_checkpoint(come) {
        return Ok(());
    }
    let stay = &branch.undos()[..keep];
    let marks = path_marks(alloc, branch.root_height(), stay, come)?;
    pruning.settle(alloc, graph, &marks)?;
    Ok(())
}

/// Raises the branch to the root, and lets go what was dropped. It takes no memory.
pub(crate) fn rise<S: UnitStore>(
    graph: &Graph,
    pruning: &Pruning,
    branch: &mut Branch<S>,
    messages: &mut BTreeMap<Name, Held>,
)
    ensures raised { (base : Base) (received root upper joined : List Message) → IsTrunk base received root (upper ++ joined) branch.old.branch → pruning.now.root.height ≡ length joined + length root
        → IsTrunk base received (joined ++ root) upper branch.new.branch × ((joined ≡ []) → IsSame (get name_cmp messages.old) (get name_cmp messages.new)) × ((joined ≢ []) → AreLetGo (get name_cmp messages.old) (get name_cmp messages.new) (state_of graph.now).dropped) }
    ensures units { branch.new.branch.units ≡ branch.old.branch.units }
    ensures fewer { (name : Name) (held : Held) → get name_cmp messages.new name ≡ Some held → get name_cmp messages.old name ≡ Some held }
{
    let height = pruning.root().height;
    let low = branch.root_height();
    if height <= low {
        return;
    }
    let by = (height - low) as usize;
    if by > branch.undos().len() {
        return;
    }
    branch.rise(by);
    let_go(messages, graph.dropped());
}
