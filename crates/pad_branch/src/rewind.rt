//! The text of a branch with its newest messages taken back.

ghost use Rattle.std.specs.Prelude.{◌≡◌, ◌+◌, ◌-◌, ◌≤◌, length, take, drop, reverse, IfOk, OnOk};
ghost use Rattle.pad_branch.specs.Undo.{Rewinds, undone};

use crate::tip::Tip;
use crate::undo::Undo;
use pad_patch::{Steps, UnitStore};
use std::alloc::{AllocError, Global};
use std::sync::ledger::Ledger;

/// The text after the newest of these undos, down to the first `keep` of them. The root and its height only serve the clauses.
pub(crate) fn rewound<S: UnitStore, L: Ledger>(
    alloc: Global,
    text: &S,
    root: &Tip,
    low: u64,
    undos: &[Undo],
    keep: usize,
    steps: &mut Steps<L>,
) -> Result<S, AllocError>
    requires keep { keep ≤ length undos.now }
    requires rewinds { Rewinds root.now low (reverse undos.now) (S.units text.now) }
    ensures units { IfOk result (λ after. S.units after ≡ undone (take (length undos.now - keep) (reverse undos.now)) (S.units text.now)) }
    ensures rewinds { IfOk result (λ after. Rewinds root.now low (drop (length undos.now - keep) (reverse undos.now)) (S.units after)) }
    ensures steps { OnOk result (steps.new ≡ steps.old + (length undos.now - keep)) }
{
    let mut after = text.copy(alloc)?;
    let mut at = undos.len();
    while keep < at {
        at -= 1;
        let undo = &undos[at];
        after = undo.inverse.apply_counted(alloc, &after, steps)?;
    }
    Ok(after)
}
