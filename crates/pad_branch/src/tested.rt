//! The test of one path.

ghost use Rattle.std.specs.Prelude.{◌≡◌, ◌+◌, ◌*◌, ◌-◌, ◌≤◌, ◌<◌, ◌^◌, ℕ, List, [], ◌∷◌, ◌++◌, length, take, reverse, IfOk, IfErr, IfSome};
ghost use Rattle.std.specs.BTreeMap.{get};
ghost use Rattle.pad_text.specs.declared.name.Name.{Name};
ghost use Rattle.pad_message.specs.declared.message.Message.{Message};
ghost use Rattle.pad_model.specs.declared.base.Base.{Base};
ghost use Rattle.pad_model.specs.Path.{last_name, IsLinkedPath};
ghost use Rattle.pad_graph.specs.State.{name_cmp};
ghost use Rattle.pad_branch.specs.Tip.{tip_after};
ghost use Rattle.pad_branch.specs.Undo.{Rewinds};
ghost use Rattle.pad_branch.specs.Held.{IsHeldAs, HoldsKept};
ghost use Rattle.pad_branch.specs.Branch.{IsTrunk, IsWon, IsStopped, CanSwitch, LeadsTo, state, text_below};

use crate::forward::go_forward;
use crate::held::Held;
use crate::position::Position;
use crate::rewind::rewound;
use crate::tip::Tip;
use crate::undo::Undo;
use crate::walk::way_down;
use crate::won::Won;
use pad_patch::{Steps, UnitStore};
use pad_text::Name;
use std::alloc::{AllocError, Global};
use std::collections::BTreeMap;
use std::sync::ledger::Ledger;

/// What stands at the end of the first so many messages of the best branch above the root.
pub(crate) fn tip_at(undos: &[Undo], root: &Tip, keep: usize) -> Tip
    requires { keep ≤ length undos.now }
    ensures { result ≡ tip_after root.now (reverse (take keep undos.now)) }
{
    if keep == 0 {
        *root
    } else {
        undos[keep - 1].after
    }
}

/// Tests the path to the message with this name, which stands so many messages above the root. Of a path that is not sound it
/// answers the name of the first message that is not.
pub(crate) fn test<S: UnitStore, L: Ledger>(
    alloc: Global,
    messages: &BTreeMap<Name, Held>,
    text: &S,
    undos: &[Undo],
    root: &Tip,
    low: u64,
    name: &Name,
    above: usize,
    steps: &mut Steps<L>,
) -> Result<Result<Won<S>, Name>, AllocError>
    requires rewinds { Rewinds root.now low (reverse undos.now) (S.units text.now) }
    requires kept { (name : Name) → IfSome (get name_cmp messages.now name) (IsHeldAs name) }
    requires room { low + above + 1 < 2 ^ 64 }
    ensures won { IfOk result (λ tested. IfOk tested (λ won. (base : Base) (received below chosen path : List Message) → HoldsKept base received below (get name_cmp messages.now)
        → IsTrunk base received below chosen (state root.now low undos.now (S.units text.now))
        → IsLinkedPath base received (path ++ below) → length path ≡ above → last_name base (path ++ below) ≡ name.now
        → IsWon base received below chosen path (state root.now low undos.now (S.units text.now)) (get name_cmp messages.now) won.keep won.undos.items (S.units won.text))) }
    ensures unsound { IfOk result (λ tested. IfErr tested (λ first. (base : Base) (received below chosen path : List Message) → HoldsKept base received below (get name_cmp messages.now)
        → IsTrunk base received below chosen (state root.now low undos.now (S.units text.now))
        → IsLinkedPath base received (path ++ below) → length path ≡ above → last_name base (path ++ below) ≡ name.now
        → IsStopped base received below path first)) }
    ensures switch { IfOk result (λ tested. IfOk tested (λ won. CanSwitch (state root.now low undos.now (S.units text.now)) won.keep won.undos.items (S.units won.text))) }
    ensures leads { IfOk result (λ tested. IfOk tested (λ won. LeadsTo (get name_cmp messages.now) (text_below (state root.now low undos.now (S.units text.now)) won.keep) (tip_after root.now (reverse (take won.keep undos.now))) (reverse won.undos.items) (S.units won.text))) }
    ensures all { IfOk result (λ tested. IfOk tested (λ won. steps.new ≡ steps.old + (length undos.now - won.keep) + 2 * length won.undos.items)) }
    ensures cost { IfOk result (λ tested. steps.new ≤ steps.old + length undos.now + 2 * above) }
{
    let way = way_down(alloc, messages, undos, name, above)?;
    let text = rewound(alloc, text, root, low, undos, way.keep, steps)?;
    let tip = tip_at(undos, root, way.keep);
    let start = Position { text, tip };
    match go_forward(alloc, messages, way.names, start, steps)? {
        Ok(trial) => Ok(Ok(Won {
            keep: way.keep,
            undos: trial.undos,
            text: trial.position.text,
        })),
        Err(first) => Ok(Err(first)),
    }
}
