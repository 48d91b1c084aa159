//! The choice among candidates: the better one is tested first.

ghost use Rattle.std.specs.Prelude.{◌≡◌, ◌+◌, ◌*◌, ◌-◌, ◌≤◌, ◌<◌, ◌^◌, ℕ, List, [], ◌∷◌, ◌++◌, length, take, reverse, All, IfOk, IfSome, IsNone, MatchOption};
ghost use Rattle.std.specs.BTreeMap.{get};
ghost use Rattle.std.specs.List.Sorted.{IsSorted};
ghost use Rattle.pad_text.specs.declared.name.Name.{Name};
ghost use Rattle.pad_message.specs.declared.message.Message.{Message};
ghost use Rattle.pad_model.specs.declared.base.Base.{Base};
ghost use Rattle.pad_model.specs.Choice.{IsBestThrough};
ghost use Rattle.pad_graph.specs.State.{name_cmp, state_of};
ghost use Rattle.pad_branch.specs.Tip.{tip_after};
ghost use Rattle.pad_branch.specs.Undo.{Rewinds};
ghost use Rattle.pad_branch.specs.Held.{IsHeldAs};
ghost use Rattle.pad_branch.specs.Pathless.{KnowsPathless, AreFound, pathless_in};
ghost use Rattle.pad_branch.specs.Branch.{IsWon, CanSwitch, LeadsTo, state, text_below};
ghost use Rattle.pad_branch.specs.Inside.Candidates.{candidate_cmp, AreReady};

use crate::candidate::Candidate;
use crate::held::Held;
use crate::passing::{is_pathless, pass_on};
use crate::plan::Plan;
use crate::tested::test;
use crate::tip::Tip;
use crate::undo::Undo;
use pad_graph::Graph;
use pad_patch::{Steps, UnitStore};
use pad_text::Name;
use std::alloc::{AllocError, Global};
use std::collections::{BTreeMap, BTreeSet};
use std::sync::ledger::Ledger;

/// Tests the candidates from the better to the worse, until one is sound.
pub(crate) fn choose_best<S: UnitStore, L: Ledger>(
    alloc: Global,
    messages: &BTreeMap<Name, Held>,
    graph: &Graph,
    text: &S,
    undos: &[Undo],
    root: &Tip,
    low: u64,
    longest: u64,
    candidates: &[Candidate],
    steps: &mut Steps<L>,
) -> Result<Plan<S>, AllocError>
    requires rewinds { Rewinds root.now low (reverse undos.now) (S.units text.now) }
    requires kept { (name : Name) → IfSome (get name_cmp messages.now name) (IsHeldAs name) }
    requires room { All (λ candidate. (low ≤ candidate.height.0) × (candidate.height.0 + 1 < 2 ^ 64)) candidates.now }
    requires sorted { IsSorted candidate_cmp candidates.now }
    ensures won { IfOk result (λ plan. IfSome plan.won (λ won. (base : Base) (received : List Message) (message : Message) (below chosen : List Message) (found : List Name)
        → AreReady base received message below chosen (state root.now low undos.now (S.units text.now)) (get name_cmp messages.now) (state_of graph.now).children longest found candidates.now
        → (path : List Message) × IsBestThrough base (message ∷ received) below (path ++ below) × IsWon base (message ∷ received) below chosen path (state root.now low undos.now (S.units text.now)) (get name_cmp messages.now) won.keep won.undos.items (S.units won.text))) }
    ensures none { IfOk result (λ plan. IsNone plan.won → (base : Base) (received : List Message) (message : Message) (below chosen : List Message) (found : List Name)
        → AreReady base received message below chosen (state root.now low undos.now (S.units text.now)) (get name_cmp messages.now) (state_of graph.now).children longest found candidates.now
        → IsBestThrough base (message ∷ received) below (chosen ++ below)) }
    ensures known { IfOk result (λ plan. (base : Base) (received : List Message) (message : Message) (below chosen : List Message) (found : List Name)
        → AreReady base received message below chosen (state root.now low undos.now (S.units text.now)) (get name_cmp messages.now) (state_of graph.now).children longest found candidates.now
        → KnowsPathless base (message ∷ received) below (pathless_in (get name_cmp messages.now) plan.pathless) × AreFound base (message ∷ received) below (pathless_in (get name_cmp messages.now) plan.pathless) (reverse plan.found.items ++ found)) }
    ensures switch { IfOk result (λ plan. IfSome plan.won (λ won. CanSwitch (state root.now low undos.now (S.units text.now)) won.keep won.undos.items (S.units won.text))) }
    ensures leads { IfOk result (λ plan. IfSome plan.won (λ won. LeadsTo (get name_cmp messages.now) (text_below (state root.now low undos.now (S.units text.now)) won.keep) (tip_after root.now (reverse (take won.keep undos.now))) (reverse won.undos.items) (S.units won.text))) }
    ensures first { IfOk result (λ plan. length plan.found.items ≡ 0 → MatchOption plan.won (steps.new ≡ steps.old) (λ won. steps.new ≡ steps.old + (length undos.now - won.keep) + 2 * length won.undos.items)) }
    ensures cost { IfOk result (λ plan. (depth : ℕ) → length undos.now ≤ depth → All (λ candidate. candidate.height.0 ≤ low + depth) candidates.now
        → steps.new ≤ steps.old + 3 * depth * (length plan.found.items + 1)) }
{
    let mut pathless = BTreeSet::new(alloc);
    let mut found = Vec::new(alloc);
    for candidate in candidates {
        if is_pathless(messages, &pathless, &candidate.name) {
            continue;
        }
        let above = (candidate.height.0 - low) as usize;
        match test(
            alloc,
            messages,
            text,
            undos,
            root,
            low,
            &candidate.name,
            above,
            steps,
        )? {
            Ok(won) => {
                return Ok(Plan {
                    won: Some(won),
                    found,
                    pathless,
                });
            }
            Err(first) => {
                pathless = pass_on(alloc, messages, graph, pathless, &first, longest)?;
                found.push(first)?;
            }
        }
    }
    Ok(Plan {
        won: None,
        found,
        pathless,
    })
}
