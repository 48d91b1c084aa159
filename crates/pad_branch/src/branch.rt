//! The best branch of a chain, with the one text that it keeps.

ghost use Rattle.std.specs.Prelude.{◌≡◌, ◌+◌, ◌*◌, ◌-◌, ◌≤◌, ◌<◌, ◌^◌, ℕ, List, [], ◌∷◌, ◌++◌, length, take, map, reverse, vec_len, vec_capacity, All, IfOk, IfErr, IfSome, IsNone, OnOk, OnErr, MatchOption};
ghost use Rattle.std.specs.BTreeMap.{get};
ghost use Rattle.pad_text.specs.declared.name.Name.{Name};
ghost use Rattle.pad_text.specs.Hash.{document_hash};
ghost use Rattle.pad_patch.specs.Misfit.{longest_text};
ghost use Rattle.pad_message.specs.declared.message.Message.{Message};
ghost use Rattle.pad_message.specs.Kind.{IsInterval};
ghost use Rattle.pad_model.specs.declared.base.Base.{Base};
ghost use Rattle.pad_model.specs.Path.{last_name, IsLinkedPath};
ghost use Rattle.pad_model.specs.Choice.{IsBestThrough};
ghost use Rattle.pad_graph.specs.State.{name_cmp, state_of};
ghost use Rattle.pad_branch.specs.Tip.{IsTipOf, tip_after};
ghost use Rattle.pad_branch.specs.Undo.{Rewinds};
ghost use Rattle.pad_branch.specs.Held.{IsHeldAs, HoldsKept};
ghost use Rattle.pad_branch.specs.Pathless.{KnowsPathless, AreFound, pathless_in};
ghost use Rattle.pad_branch.specs.Choice.{IsReady};
ghost use Rattle.pad_branch.specs.Move.{move_back};
ghost use Rattle.pad_branch.specs.Branch.{IsTrunk, IsWon, IsStopped, CanSwitch, HasRoom, LeadsTo, State, text_below, tip_of, height_of, switched, risen};

use crate::candidates::better;
use crate::choose::choose_best;
use crate::held::Held;
use crate::moved::Move;
use crate::moving::{forget_first, unwind, wind};
use crate::plan::Plan;
use crate::tested::{test, tip_at};
use crate::tip::Tip;
use crate::undo::Undo;
use crate::won::Won;
use pad_graph::{Graph, Linking};
use pad_patch::{Steps, UnitStore};
use pad_text::Name;
use std::alloc::{AllocError, Global};
use std::collections::BTreeMap;
use std::marker::Model;
use std::sync::ledger::Ledger;

/// The best branch of a chain: the text at its end, its root, and how to take back each message above the root.
#[derive(Drop)]
pub struct Branch<S: UnitStore> {
    root: Tip,
    low: u64,
    undos: Vec<Undo>,
    text: S,
}

impl<S: UnitStore> Model for Branch<S> {
    ghost use Rattle.std.specs.Prelude.{◌<◌, ◌+◌, ◌^◌, length, reverse, vec_capacity};
    ghost use Rattle.pad_branch.specs.Branch.{View, state};
    ghost use Rattle.pad_branch.specs.Undo.{Rewinds};

    ghost Value = { View };

    ghost view = { λ branch. record { branch = state branch.root branch.low branch.undos.items (S.units branch.text); room = vec_capacity branch.undos } };

    ghost invariant = { λ branch. Rewinds branch.root branch.low (reverse branch.undos.items) (S.units branch.text) × (branch.low + length branch.undos.items + 1 < 2 ^ 64) };
}

impl<S: UnitStore> Branch<S> {
    /// The branch that is its root alone, where a path with this last name and height has this text, and such an interval in force.
    /// Its last message is a checkpoint, or it has none.
    pub fn at_root(
        alloc: Global,
        name: Name,
        height: u64,
        mut text: S,
        interval: u16,
    ) -> Result<Branch<S>, AllocError>
        requires short { length (S.units text) ≤ longest_text }
        requires interval { IsInterval interval }
        requires few { height + 1 < 2 ^ 64 }
        ensures { IfOk result (λ branch. branch.branch ≡ record { root = record { name = name; hash = document_hash (S.units text); since = 0; interval = interval }; low = height; undos = []; units = S.units text }) }
    {
        text.remember(alloc)?;
        let hash = text.hash(alloc)?;
        let root = Tip {
            name,
            hash,
            since: 0,
            interval,
        };
        Ok(Branch {
            root,
            low: height,
            undos: Vec::new(alloc),
            text,
        })
    }

    /// Lends the text at the end.
    pub fn text(&self) -> &S
        ensures { S.units result.now ≡ self.now.branch.units }
    {
        &self.text
    }

    /// The tip at the end.
    pub fn tip(&self) -> Tip
        ensures is { result ≡ tip_of self.now.branch }
        ensures stands { IsTipOf result (height_of self.now.branch) self.now.branch.units }
    {
        tip_at(self.undos.as_slice(), &self.root, self.undos.len())
    }

    /// The height of the end.
    pub fn height(&self) -> u64
        ensures is { result ≡ height_of self.now.branch }
        ensures few { result + 1 < 2 ^ 64 }
    {
        self.low + self.undos.len() as u64
    }

    /// The tip of the root.
    pub fn root(&self) -> Tip
        ensures { result ≡ self.now.branch.root }
    {
        self.root
    }

    /// The height of the root.
    pub fn root_height(&self) -> u64
        ensures { result ≡ self.now.branch.low }
    {
        self.low
    }

    /// Lends the undos of the messages above the root, the oldest first.
    pub fn undos(&self) -> &[Undo]
        ensures are { result.now ≡ self.now.branch.undos }
        ensures rewinds { Rewinds self.now.branch.root self.now.branch.low (reverse self.now.branch.undos) self.now.branch.units }
    {
        self.undos.as_slice()
    }

    /// Tests the path through the root to the message with this name and height, or to the root itself. Of a path that is not sound
    /// it answers the name of the first message that is not. The branch stays what it is. Each message of that path above the root
    /// is to be held; where one is not, the answer is a branch that `switch_to` can take, and tells nothing of a path.
    pub fn test_path<L: Ledger>(
        &self,
        alloc: Global,
        messages: &BTreeMap<Name, Held>,
        name: &Name,
        height: u64,
        steps: &mut Steps<L>,
    ) -> Result<Result<Won<S>, Name>, AllocError>
        requires held { (name : Name) → IfSome (get name_cmp messages.now name) (IsHeldAs name) }
        requires high { self.now.branch.low ≤ height }
        requires few { height + 1 < 2 ^ 64 }
        ensures won { IfOk result (λ tested. IfOk tested (λ won. (base : Base) (received below chosen path : List Message) → HoldsKept base received below (get name_cmp messages.now)
            → IsTrunk base received below chosen self.now.branch
            → IsLinkedPath base received (path ++ below) → length (path ++ below) ≡ height → last_name base (path ++ below) ≡ name.now
            → IsWon base received below chosen path self.now.branch (get name_cmp messages.now) won.keep won.undos.items (S.units won.text))) }
        ensures unsound { IfOk result (λ tested. IfErr tested (λ first. (base : Base) (received below chosen path : List Message) → HoldsKept base received below (get name_cmp messages.now)
            → IsTrunk base received below chosen self.now.branch
            → IsLinkedPath base received (path ++ below) → length (path ++ below) ≡ height → last_name base (path ++ below) ≡ name.now
            → IsStopped base received below path first)) }
        ensures switch { IfOk result (λ tested. IfOk tested (λ won. CanSwitch self.now.branch won.keep won.undos.items (S.units won.text))) }
        ensures leads { IfOk result (λ tested. IfOk tested (λ won. LeadsTo (get name_cmp messages.now) (text_below self.now.branch won.keep) (tip_after self.now.branch.root (reverse (take won.keep self.now.branch.undos))) (reverse won.undos.items) (S.units won.text))) }
        ensures all { IfOk result (λ tested. IfOk tested (λ won. steps.new ≡ steps.old + (length self.now.branch.undos - won.keep) + 2 * length won.undos.items)) }
        ensures cost { IfOk result (λ tested. steps.new ≤ steps.old + length self.now.branch.undos + 2 * (height - self.now.branch.low)) }
    {
        let above = (height - self.low) as usize;
        test(
            alloc,
            messages,
            &self.text,
            self.undos.as_slice(),
            &self.root,
            self.low,
            name,
            above,
            steps,
        )
    }

    /// The best path through the root after a message came, with which these became linked. A path is tested only if it betters
    /// the branch by its height and name, and no message on it is known pathless. The branch stays what it is.
    pub fn choose<L: Ledger>(
        &self,
        alloc: Global,
        messages: &BTreeMap<Name, Held>,
        graph: &Graph,
        linkings: &[Linking],
        steps: &mut Steps<L>,
    ) -> Result<Plan<S>, AllocError>
        requires held { (name : Name) → IfSome (get name_cmp messages.now name) (IsHeldAs name) }
        ensures won { IfOk result (λ plan. IfSome plan.won (λ won. (base : Base) (received : List Message) (message : Message) (below chosen : List Message) (found : List Name)
            → IsReady base received message below chosen self.now.branch (get name_cmp messages.now) (state_of graph.now) found linkings.now
            → (path : List Message) × IsBestThrough base (message ∷ received) below (path ++ below) × IsWon base (message ∷ received) below chosen path self.now.branch (get name_cmp messages.now) won.keep won.undos.items (S.units won.text))) }
        ensures none { IfOk result (λ plan. IsNone plan.won → (base : Base) (received : List Message) (message : Message) (below chosen : List Message) (found : List Name)
            → IsReady base received message below chosen self.now.branch (get name_cmp messages.now) (state_of graph.now) found linkings.now
            → IsBestThrough base (message ∷ received) below (chosen ++ below)) }
        ensures known { IfOk result (λ plan. (base : Base) (received : List Message) (message : Message) (below chosen : List Message) (found : List Name)
            → IsReady base received message below chosen self.now.branch (get name_cmp messages.now) (state_of graph.now) found linkings.now
            → KnowsPathless base (message ∷ received) below (pathless_in (get name_cmp messages.now) plan.pathless) × AreFound base (message ∷ received) below (pathless_in (get name_cmp messages.now) plan.pathless) (reverse plan.found.items ++ found)) }
        ensures switch { IfOk result (λ plan. IfSome plan.won (λ won. CanSwitch self.now.branch won.keep won.undos.items (S.units won.text))) }
        ensures leads { IfOk result (λ plan. IfSome plan.won (λ won. LeadsTo (get name_cmp messages.now) (text_below self.now.branch won.keep) (tip_after self.now.branch.root (reverse (take won.keep self.now.branch.undos))) (reverse won.undos.items) (S.units won.text))) }
        ensures first { IfOk result (λ plan. length plan.found.items ≡ 0 → MatchOption plan.won (steps.new ≡ steps.old) (λ won. steps.new ≡ steps.old + (length self.now.branch.undos - won.keep) + 2 * length won.undos.items)) }
        ensures cost { IfOk result (λ plan. (depth : ℕ) → length self.now.branch.undos ≤ depth → All (λ (linking : Linking). linking.height ≤ self.now.branch.low + depth) linkings.now
            → steps.new ≤ steps.old + 3 * depth * (length plan.found.items + 1)) }
    {
        let tip = self.tip();
        let height = self.height();
        let longest = graph.known();
        let candidates = better(alloc, linkings, &tip.name, height, longest)?;
        choose_best(
            alloc,
            messages,
            graph,
            &self.text,
            self.undos.as_slice(),
            &self.root,
            self.low,
            longest,
            candidates.as_slice(),
            steps,
        )
    }

    /// Makes sure that there is memory for so many undos more. The branch stays what it is.
    pub fn reserve(&mut self, more: usize) -> Result<(), AllocError>
        ensures same { self.new.branch ≡ self.old.branch }
        ensures room { OnOk result (length self.old.branch.undos + more ≤ self.new.room) }
    {
        self.undos.reserve(more)
    }

    /// Makes sure that there is memory to make this path the branch: in the longer one of the two lists of undos, so that these are
    /// not there twice. Branch and path stay what they are.
    pub fn make_room(&mut self, won: &mut Won<S>) -> Result<(), AllocError>
        requires { won.old.keep ≤ length self.old.branch.undos }
        ensures same { self.new.branch ≡ self.old.branch }
        ensures keep { won.new.keep ≡ won.old.keep }
        ensures undos { won.new.undos.items ≡ won.old.undos.items }
        ensures text { won.new.text ≡ won.old.text }
        ensures room { OnOk result (HasRoom self.new.room won.new.keep won.new.undos) }
    {
        if won.keep < won.undos.len() {
            won.undos.reserve(won.keep)
        } else {
            self.undos.reserve(won.undos.len())
        }
    }

    /// Makes this path the branch. Those that leave it are added to `reverted`, the newest first. It takes no memory.
    pub fn switch_to(&mut self, won: Won<S>, reverted: &mut Vec<Move>)
        requires can { CanSwitch self.old.branch won.keep won.undos.items (S.units won.text) }
        requires room { HasRoom self.old.room won.keep won.undos }
        requires reserved { length self.old.branch.undos - won.keep ≤ vec_capacity reverted.old - vec_len reverted.old }
        ensures branch { self.new.branch ≡ switched self.old.branch won.keep won.undos.items (S.units won.text) }
        ensures reverted { reverted.new.items ≡ reverted.old.items ++ map move_back (take (length self.old.branch.undos - won.keep) (reverse self.old.branch.undos)) }
    {
        unwind(&mut self.undos, won.keep, reverted);
        wind(&mut self.undos, won.undos);
        self.text = won.text;
    }

    /// Raises the root by so many messages. It takes no memory.
    pub fn rise(&mut self, by: usize)
        requires { by ≤ length self.old.branch.undos }
        ensures branch { self.new.branch ≡ risen by self.old.branch }
        ensures stands { (base : Base) (received below chosen joined : List Message) → IsTrunk base received below (chosen ++ joined) self.old.branch → length joined ≡ by
            → IsTrunk base received (joined ++ below) chosen self.new.branch }
    {
        self.root = tip_at(self.undos.as_slice(), &self.root, by);
        self.low += by as u64;
        forget_first(&mut self.undos, by);
    }
}
