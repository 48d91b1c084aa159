//! A message that comes.

ghost use Rattle.std.specs.Prelude.{◌≡◌, ◌≤◌, ◌+◌, ◌-◌, ◌*◌, ℕ, List, ◌∷◌, ◌++◌, length, take, map, reverse, vec_len, vec_capacity, IfOk, IfErr, IfSome, OnOk, OnErr, Some, None, Err, true};
ghost use Rattle.std.specs.BTreeMap.{get};
ghost use Rattle.pad_text.specs.declared.name.Name.{Name};
ghost use Rattle.pad_message.specs.Content.{most_operations};
ghost use Rattle.pad_message.specs.declared.message.Message.{Message};
ghost use Rattle.pad_message.specs.Kind.{HasInterval};
ghost use Rattle.pad_message.specs.Message.{name_of};
ghost use Rattle.pad_graph.specs.declared.graph.TheConstants.{MOST_NAMES};
ghost use Rattle.pad_graph.specs.declared.standing.Standing.TheVariants.{Unknown};
ghost use Rattle.pad_graph.specs.declared.added.Added.TheVariants.{Waiting, Below, Linked};
ghost use Rattle.pad_graph.specs.Chain.{Link};
ghost use Rattle.pad_graph.specs.Graph.{Stands};
ghost use Rattle.pad_graph.specs.State as graph;
ghost use Rattle.pad_graph.specs.State.{name_cmp, last_added, state_of};
ghost use Rattle.pad_model.specs.declared.base.Base.{Base};
ghost use Rattle.pad_model.specs.Path.{NamesDiffer};
ghost use Rattle.pad_model.specs.Choice.{Choice};
ghost use Rattle.pad_branch.specs.Tip.{tip_after};
ghost use Rattle.pad_branch.specs.Undo.{undone_name};
ghost use Rattle.pad_branch.specs.Held.{IsHeldAs, messages_at};
ghost use Rattle.pad_branch.specs.Move.{move_on};
ghost use Rattle.pad_branch.specs.Branch.{CanSwitch, LeadsTo, text_below, tip_of, height_of};
ghost use Rattle.pad_chain.specs.declared.moved.Moved.{Moved};
ghost use Rattle.pad_chain.specs.declared.receive_refused.ReceiveRefused.TheVariants.{Full};
ghost use Rattle.pad_chain.specs.State.{held_of};
ghost use Rattle.pad_chain.specs.Tie.{StandsFor};
ghost use Rattle.pad_chain.specs.Leads.{Leads};
ghost use Rattle.pad_chain.specs.Receive.{IsReceived, KeepsFound, KeepsBranch, KeepsHeld, KeepsStands, IsUntouched, IsWithin};
ghost use Rattle.pad_chain.specs.Knows.{Knows, IsFull};
ghost use Rattle.pad_chain.specs.Inside.Tables.{IsPut};
ghost use Rattle.pad_chain.specs.Inside.Receiving.{KeepsNames, UndoesName, Receives, Refuses, TakesOn, Stays, Switches, MovesNothing, Meant, LeadsOn, IsFirst, Costs};

use crate::chain::Chain;
use crate::moved::{Moved, Moves};
use crate::receive_refused::ReceiveRefused;
use crate::settling::{rise, settle};
use crate::tables::{has_mark, hold_added, knows_few, let_go, mark_all, note};
use pad_branch::{
    Branch, Held, Move, Plan, Undo, Won, applied, found_above, found_stays, known_above,
    marks_pass, root_stays, stays_known, trunk_stays,
};
use pad_checkpoint::{Place, roots_rise_to_cuts_above};
use pad_graph::{Added, Linking, Linkings};
use pad_message::Message;
use pad_model::{
    best_through_its_root, nothing_links, only_new_paths, repeat_changes_no_choice, stays_chosen,
};
use pad_patch::{Steps, UnitStore};
use pad_text::Name;
use std::alloc::{AllocError, Global};
use std::collections::{BTreeMap, BTreeSet};
use std::sync::ledger::Ledger;

/// Where a branch ends.
fn end_of<S: UnitStore>(branch: &Branch<S>) -> Place
    ensures { result ≡ record { name = (tip_of branch.now.branch).name; height = height_of branch.now.branch } }
{
    Place {
        name: branch.tip().name,
        height: branch.height(),
    }
}

/// Adds names, for which there is memory.
fn add_found(found: &mut Vec<Name>, more: Vec<Name>)
    requires { vec_len found.old + vec_len more ≤ vec_capacity found.old }
    ensures { found.new.items ≡ found.old.items ++ more.items }
{
    let mut more = more;
    let _ = found.append(&mut more);
}

/// The moves of the messages that come on, if they are to be told. Else there are none.
fn told_on(
    alloc: Global,
    messages: &BTreeMap<Name, Held>,
    undos: &[Undo],
    tell: bool,
) -> Result<Vec<Move>, AllocError>
    requires held { (name : Name) → IfSome (get name_cmp messages.now name) (IsHeldAs name) }
    ensures { IfOk result (λ moves. tell ≡ true → moves.items ≡ map move_on (messages_at (get name_cmp messages.now) (map undone_name undos.now))) }
{
    if tell {
        applied(alloc, messages, undos)
    } else {
        Ok(Vec::new(alloc))
    }
}

impl<S: UnitStore> Chain<S> {
    /// Receives a message, and tells how the chosen path changed. It is refused where its name is new and as many names are known
    /// as there may be, and `Full` comes only there. A chain that refused a message stands for what it stood for.
    pub fn receive<L: Ledger>(
        &mut self,
        alloc: Global,
        message: Message,
        steps: &mut Steps<L>,
    ) -> Result<Moved, ReceiveRefused>
        requires few { length message.patch.ops ≤ most_operations }
        requires interval { HasInterval message.kind }
        ensures stands { IfOk result (λ moved. (base : Base) (received : List Message) (choice : Choice) → NamesDiffer (message ∷ received) → StandsFor self.old base received choice → IsReceived self.old self.new base received message choice moved) }
        ensures refused { OnErr result ((base : Base) (received : List Message) (choice : Choice) → StandsFor self.old base received choice → StandsFor self.new base received choice) }
        ensures whole { self.new.whole ≡ self.old.whole }
        ensures knows { OnOk result ((base : Base) (received : List Message) → Knows self.old base received → Knows self.new base (message ∷ received)) }
        ensures knows_still { OnErr result ((base : Base) (received : List Message) → Knows self.old base received → Knows self.new base received) }
        ensures full { IfErr result (λ refused. refused ≡ Full → (graph.standing (state_of self.old.graph) (name_of message) ≡ Unknown) × (self.old.graph.known ≡ MOST_NAMES)) }
        ensures limit { IfErr result (λ refused. refused ≡ Full → (base : Base) (received : List Message) → Knows self.old base received → IsFull base received message) }
        ensures elsewhere { OnOk result ((base : Base) (received : List Message) → Knows self.old base received → ¬ (IsFull base received message)) }
        ensures space { graph.standing (state_of self.old.graph) (name_of message) ≡ Unknown → self.old.graph.known ≡ MOST_NAMES → OnOk result ⊥ }
        ensures grows { (base : Base) (received : List Message) → Knows self.old base received → self.new.graph.known ≤ self.old.graph.known + 1 }
        ensures leads { IfOk result (λ moved. Leads (moved.reverted ++ moved.applied) self.old.branch.branch.units self.new.branch.branch.units) }
        ensures kept { OnOk result (KeepsFound self.old self.new) }
        ensures same { OnErr result (KeepsBranch self.old self.new) }
        ensures held { OnErr result (KeepsHeld self.old self.new (name_of message)) }
        ensures links { OnErr result (KeepsStands self.old self.new) }
        ensures untouched { IfErr result (λ refused. refused ≡ Full → IsUntouched self.old self.new) }
        ensures first { IfOk result (λ moved. length self.new.found ≡ length self.old.found → steps.new ≤ steps.old + length moved.reverted + 2 * length moved.applied) }
        ensures cost { OnOk result ((base : Base) (received : List Message) (choice : Choice) (depth rise : ℕ) → StandsFor self.old base received choice → IsWithin base (message ∷ received) choice.root depth
            → length self.new.found ≡ length self.old.found + rise → steps.new ≤ steps.old + 3 * depth * (rise + 1)) }
        ensures unstepped { IfErr result (λ refused. refused ≡ Full → steps.new ≡ steps.old) }
    {
        let name = message.name(alloc)?;
        self.receive_named(alloc, name, message, steps)
    }

    /// The same, where the message's name is at hand. `Full` comes exactly where its name is new and as many names
    /// are known as there may be.
    pub fn receive_named<L: Ledger>(
        &mut self,
        alloc: Global,
        name: Name,
        message: Message,
        steps: &mut Steps<L>,
    ) -> Result<Moved, ReceiveRefused>
        requires named { name ≡ name_of message }
        requires interval { HasInterval message.kind }
        ensures stands { IfOk result (λ moved. (base : Base) (received : List Message) (choice : Choice) → NamesDiffer (message ∷ received) → StandsFor self.old base received choice → IsReceived self.old self.new base received message choice moved) }
        ensures refused { OnErr result ((base : Base) (received : List Message) (choice : Choice) → StandsFor self.old base received choice → StandsFor self.new base received choice) }
        ensures whole { self.new.whole ≡ self.old.whole }
        ensures knows { OnOk result ((base : Base) (received : List Message) → Knows self.old base received → Knows self.new base (message ∷ received)) }
        ensures knows_still { OnErr result ((base : Base) (received : List Message) → Knows self.old base received → Knows self.new base received) }
        ensures full { IfErr result (λ refused. refused ≡ Full → (graph.standing (state_of self.old.graph) name ≡ Unknown) × (self.old.graph.known ≡ MOST_NAMES)) }
        ensures limit { IfErr result (λ refused. refused ≡ Full → (base : Base) (received : List Message) → Knows self.old base received → IsFull base received message) }
        ensures room { graph.standing (state_of self.old.graph) name ≡ Unknown → self.old.graph.known ≡ MOST_NAMES → result ≡ Err Full }
        ensures exact { (base : Base) (received : List Message) → Knows self.old base received → IsFull base received message → result ≡ Err Full }
        ensures grows { (base : Base) (received : List Message) → Knows self.old base received → self.new.graph.known ≤ self.old.graph.known + 1 }
        ensures leads { IfOk result (λ moved. Leads (moved.reverted ++ moved.applied) self.old.branch.branch.units self.new.branch.branch.units) }
        ensures kept { OnOk result (KeepsFound self.old self.new) }
        ensures same { OnErr result (KeepsBranch self.old self.new) }
        ensures held { OnErr result (KeepsHeld self.old self.new name) }
        ensures links { OnErr result (KeepsStands self.old self.new) }
        ensures untouched { IfErr result (λ refused. refused ≡ Full → IsUntouched self.old self.new) }
        ensures first { IfOk result (λ moved. length self.new.found ≡ length self.old.found → steps.new ≤ steps.old + length moved.reverted + 2 * length moved.applied) }
        ensures cost { OnOk result ((base : Base) (received : List Message) (choice : Choice) (depth rise : ℕ) → StandsFor self.old base received choice → IsWithin base (message ∷ received) choice.root depth
            → length self.new.found ≡ length self.old.found + rise → steps.new ≤ steps.old + 3 * depth * (rise + 1)) }
        ensures unstepped { IfErr result (λ refused. refused ≡ Full → steps.new ≡ steps.old) }
    {
        self.take_in(alloc, name, message, steps, true)
    }

    /// The same as `receive`, but the moves are not told, and no patch is copied for them.
    pub fn receive_without_moves<L: Ledger>(
        &mut self,
        alloc: Global,
        message: Message,
        steps: &mut Steps<L>,
    ) -> Result<(), ReceiveRefused>
        requires few { length message.patch.ops ≤ most_operations }
        requires interval { HasInterval message.kind }
        ensures stands { OnOk result ((base : Base) (received : List Message) (choice : Choice) → NamesDiffer (message ∷ received) → StandsFor self.old base received choice → (moved : Moved) × IsReceived self.old self.new base received message choice moved) }
        ensures refused { OnErr result ((base : Base) (received : List Message) (choice : Choice) → StandsFor self.old base received choice → StandsFor self.new base received choice) }
        ensures whole { self.new.whole ≡ self.old.whole }
        ensures knows { OnOk result ((base : Base) (received : List Message) → Knows self.old base received → Knows self.new base (message ∷ received)) }
        ensures knows_still { OnErr result ((base : Base) (received : List Message) → Knows self.old base received → Knows self.new base received) }
        ensures full { IfErr result (λ refused. refused ≡ Full → (graph.standing (state_of self.old.graph) (name_of message) ≡ Unknown) × (self.old.graph.known ≡ MOST_NAMES)) }
        ensures limit { IfErr result (λ refused. refused ≡ Full → (base : Base) (received : List Message) → Knows self.old base received → IsFull base received message) }
        ensures kept { OnOk result (KeepsFound self.old self.new) }
        ensures same { OnErr result (KeepsBranch self.old self.new) }
        ensures held { OnErr result (KeepsHeld self.old self.new (name_of message)) }
        ensures links { OnErr result (KeepsStands self.old self.new) }
        ensures untouched { IfErr result (λ refused. refused ≡ Full → IsUntouched self.old self.new) }
        ensures cost { OnOk result ((base : Base) (received : List Message) (choice : Choice) (depth rise : ℕ) → StandsFor self.old base received choice → IsWithin base (message ∷ received) choice.root depth
            → length self.new.found ≡ length self.old.found + rise → steps.new ≤ steps.old + 3 * depth * (rise + 1)) }
        ensures unstepped { IfErr result (λ refused. refused ≡ Full → steps.new ≡ steps.old) }
    {
        let name = message.name(alloc)?;
        match self.take_in(alloc, name, message, steps, false) {
            Ok(_) => Ok(()),
            Err(refused) => Err(refused),
        }
    }

    /// Adds a message to the graph, and does what follows of it. It tells the moves only if it is to tell them.
    fn take_in<L: Ledger>(
        &mut self,
        alloc: Global,
        name: Name,
        message: Message,
        steps: &mut Steps<L>,
        tell: bool,
    ) -> Result<Moved, ReceiveRefused>
        requires named { name ≡ name_of message }
        requires interval { HasInterval message.kind }
        ensures stands { IfOk result (λ told. Meant tell told (λ moved. (base : Base) (received : List Message) (choice : Choice) → NamesDiffer (message ∷ received) → StandsFor self.old base received choice → IsReceived self.old self.new base received message choice moved)) }
        ensures refused { OnErr result ((base : Base) (received : List Message) (choice : Choice) → StandsFor self.old base received choice → StandsFor self.new base received choice) }
        ensures whole { self.new.whole ≡ self.old.whole }
        ensures knows { OnOk result ((base : Base) (received : List Message) → Knows self.old base received → Knows self.new base (message ∷ received)) }
        ensures knows_still { OnErr result ((base : Base) (received : List Message) → Knows self.old base received → Knows self.new base received) }
        ensures full { IfErr result (λ refused. refused ≡ Full → (graph.standing (state_of self.old.graph) name ≡ Unknown) × (self.old.graph.known ≡ MOST_NAMES)) }
        ensures room { graph.standing (state_of self.old.graph) name ≡ Unknown → self.old.graph.known ≡ MOST_NAMES → result ≡ Err Full }
        ensures leads { IfOk result (λ told. Meant tell told (LeadsOn self.old self.new)) }
        ensures kept { OnOk result (KeepsFound self.old self.new) }
        ensures same { OnErr result (KeepsBranch self.old self.new) }
        ensures held { OnErr result (KeepsHeld self.old self.new name) }
        ensures links { OnErr result (KeepsStands self.old self.new) }
        ensures untouched { IfErr result (λ refused. refused ≡ Full → IsUntouched self.old self.new) }
        ensures first { IfOk result (λ told. Meant tell told (λ moved. IsFirst self.old self.new moved steps.old steps.new)) }
        ensures cost { OnOk result ((base : Base) (received : List Message) (choice : Choice) (depth rise : ℕ) → StandsFor self.old base received choice → IsWithin base (message ∷ received) choice.root depth
            → length self.new.found ≡ length self.old.found + rise → steps.new ≤ steps.old + 3 * depth * (rise + 1)) }
        ensures unstepped { IfErr result (λ refused. refused ≡ Full → steps.new ≡ steps.old) }
    {
        stays_chosen();
        nothing_links();
        found_stays();
        trunk_stays();
        let parent = message.parent;
        match self.graph.add(alloc, name, parent)? {
            Added::Known => Ok(Moved::none(alloc)),
            Added::Waiting => {
                let moved = self.wait(alloc, name, message)?;
                Ok(moved)
            }
            Added::Below(below) => Ok(self.pass_below(alloc, &below)),
            Added::Linked(linkings) => {
                let moved = self.join(alloc, name, message, linkings.as_slice(), steps, tell)?;
                Ok(moved)
            }
        }
    }

    /// Holds a message that waits.
    fn wait(&mut self, alloc: Global, name: Name, message: Message) -> Result<Moved, AllocError>
        requires named { name ≡ name_of message }
        requires interval { HasInterval message.kind }
        requires added { last_added (state_of self.old.graph) ≡ Some name }
        ensures received { IfOk result (Receives self.old self.new message Waiting) }
        ensures refused { OnErr result (Refuses self.old self.new message Waiting) }
        ensures links { OnOk result (KeepsNames self.old self.new) }
        ensures undone { OnErr result (UndoesName self.old self.new) }
        ensures whole { self.new.whole ≡ self.old.whole }
        ensures none { IfOk result MovesNothing }
        ensures same { KeepsBranch self.old self.new }
        ensures held { OnErr result (KeepsHeld self.old self.new name) }
    {
        stays_chosen();
        nothing_links();
        found_stays();
        trunk_stays();
        hold_added(&mut self.graph, &mut self.messages, name, message)?;
        Ok(Moved::none(alloc))
    }

    /// Counts what overtook of messages that became linked below the root, and lets go those that waited.
    fn pass_below(&mut self, alloc: Global, below: &Linkings) -> Moved
        ensures received { (message : Message) → Receives self.old self.new message (Below below.now) result }
        ensures links { KeepsNames self.old self.new }
        ensures whole { self.new.whole ≡ self.old.whole }
        ensures none { MovesNothing result }
        ensures branch { self.new.branch ≡ self.old.branch }
        ensures found { self.new.found ≡ self.old.found }
    {
        stays_chosen();
        found_stays();
        trunk_stays();
        stays_known();
        knows_few(&self.graph);
        let best = end_of(&self.branch);
        self.pruning.count_below(below, &best);
        let_go(&mut self.messages, below.as_slice());
        Moved::none(alloc)
    }

    /// Holds a message that became linked through the root with these, and chooses a path anew.
    fn join<L: Ledger>(
        &mut self,
        alloc: Global,
        name: Name,
        message: Message,
        linkings: &[Linking],
        steps: &mut Steps<L>,
        tell: bool,
    ) -> Result<Moved, AllocError>
        requires named { name ≡ name_of message }
        requires interval { HasInterval message.kind }
        requires added { last_added (state_of self.old.graph) ≡ Some name }
        ensures received { IfOk result (λ told. Meant tell told (Receives self.old self.new message (Linked linkings.now))) }
        ensures refused { OnErr result (Refuses self.old self.new message (Linked linkings.now)) }
        ensures links { OnOk result (KeepsNames self.old self.new) }
        ensures undone { OnErr result (UndoesName self.old self.new) }
        ensures whole { self.new.whole ≡ self.old.whole }
        ensures leads { IfOk result (λ told. Meant tell told (LeadsOn self.old self.new)) }
        ensures kept { OnOk result (KeepsFound self.old self.new) }
        ensures same { OnErr result (KeepsBranch self.old self.new) }
        ensures held { OnErr result (KeepsHeld self.old self.new name) }
        ensures first { IfOk result (λ told. Meant tell told (λ moved. IsFirst self.old self.new moved steps.old steps.new)) }
        ensures cost { OnOk result (Costs self.old self.new linkings.now steps.old steps.new) }
    {
        best_through_its_root();
        repeat_changes_no_choice();
        only_new_paths();
        found_stays();
        trunk_stays();
        marks_pass();
        let parent = message.parent;
        hold_added(&mut self.graph, &mut self.messages, name, message)?;
        if has_mark(&self.messages, &parent) {
            mark_all(&mut self.messages, linkings);
            return Ok(Moved::none(alloc));
        }
        match self.take_on(alloc, linkings, steps, tell) {
            Ok(moved) => Ok(moved),
            Err(error) => {
                self.take_back(&name);
                Err(error)
            }
        }
    }

    /// Takes back a message that was added last, and is held.
    fn take_back(&mut self, name: &Name)
        requires { last_added (state_of self.old.graph) ≡ Some name.now }
        ensures undone { (base : Name) (link : Link) (links : List Link) (root : List Name) → Stands (state_of self.old.graph) base (link ∷ links) root → Stands (state_of self.new.graph) base links root }
        ensures removed { IsPut (held_of self.old) (held_of self.new) name.now None }
        ensures rest { self.new ≡ record self.old { graph = self.new.graph; messages = self.new.messages } }
    {
        let _ = self.messages.remove(name);
        self.graph.undo_add(name);
    }

    /// Chooses a path anew after a message on one without a mark became linked with these. The chain stays what it is where
    /// there is no memory.
    fn take_on<L: Ledger>(
        &mut self,
        alloc: Global,
        linkings: &[Linking],
        steps: &mut Steps<L>,
        tell: bool,
    ) -> Result<Moved, AllocError>
        ensures received { IfOk result (λ told. Meant tell told (TakesOn self.old self.new linkings.now)) }
        ensures links { OnOk result (KeepsNames self.old self.new) }
        ensures untouched { OnErr result (IsUntouched self.old self.new) }
        ensures whole { self.new.whole ≡ self.old.whole }
        ensures leads { IfOk result (λ told. Meant tell told (LeadsOn self.old self.new)) }
        ensures kept { OnOk result (KeepsFound self.old self.new) }
        ensures first { IfOk result (λ told. Meant tell told (λ moved. IsFirst self.old self.new moved steps.old steps.new)) }
        ensures cost { OnOk result (Costs self.old self.new linkings.now steps.old steps.new) }
    {
        best_through_its_root();
        found_stays();
        trunk_stays();
        stays_known();
        let plan = self
            .branch
            .choose(alloc, &self.messages, &self.graph, linkings, steps)?;
        let Plan {
            won,
            found,
            pathless,
        } = plan;
        match won {
            Some(won) => self.switch(alloc, won, pathless, found, tell),
            None => self.stay(alloc, pathless, found),
        }
    }

    /// Notes what was found out, where the chosen path stays.
    fn stay(
        &mut self,
        alloc: Global,
        pathless: BTreeSet<Name>,
        found: Vec<Name>,
    ) -> Result<Moved, AllocError>
        ensures received { IfOk result (Stays self.old self.new pathless (reverse found.items)) }
        ensures links { OnOk result (KeepsNames self.old self.new) }
        ensures untouched { OnErr result (IsUntouched self.old self.new) }
        ensures whole { self.new.whole ≡ self.old.whole }
        ensures none { IfOk result MovesNothing }
        ensures branch { OnOk result (self.new.branch ≡ self.old.branch) }
        ensures found { OnOk result (self.new.found ≡ reverse found.items ++ self.old.found) }
    {
        repeat_changes_no_choice();
        self.found.reserve(found.len())?;
        note(&self.graph, &mut self.messages, pathless);
        add_found(&mut self.found, found);
        Ok(Moved::none(alloc))
    }

    /// Makes the path that won the chosen one, and notes what was found out.
    fn switch(
        &mut self,
        alloc: Global,
        won: Won<S>,
        pathless: BTreeSet<Name>,
        found: Vec<Name>,
        tell: bool,
    ) -> Result<Moved, AllocError>
        requires can { CanSwitch self.old.branch.branch won.keep won.undos.items (S.units won.text) }
        requires leads { LeadsTo (held_of self.old) (text_below self.old.branch.branch won.keep) (tip_after self.old.branch.branch.root (reverse (take won.keep self.old.branch.branch.undos))) (reverse won.undos.items) (S.units won.text) }
        ensures received { IfOk result (λ told. Meant tell told (Switches self.old self.new pathless (reverse found.items) won.keep won.undos.items (S.units won.text))) }
        ensures links { OnOk result (KeepsNames self.old self.new) }
        ensures untouched { OnErr result (IsUntouched self.old self.new) }
        ensures whole { self.new.whole ≡ self.old.whole }
        ensures leads { IfOk result (λ told. Meant tell told (LeadsOn self.old self.new)) }
        ensures many { IfOk result (λ told. Meant tell told (λ moved. (length moved.reverted ≡ length self.old.branch.branch.undos - won.keep) × (length moved.applied ≡ length won.undos.items))) }
        ensures found { OnOk result (self.new.found ≡ reverse found.items ++ self.old.found) }
    {
        repeat_changes_no_choice();
        root_stays();
        roots_rise_to_cuts_above();
        known_above();
        found_above();
        let comes = told_on(alloc, &self.messages, won.undos.as_slice(), tell)?;
        let mut leaves = Vec::new(alloc);
        leaves.reserve(self.branch.undos().len() - won.keep)?;
        let mut won = won;
        self.branch.make_room(&mut won)?;
        self.found.reserve(found.len())?;
        settle(
            alloc,
            &mut self.graph,
            &mut self.pruning,
            &self.branch,
            self.whole,
            won.keep,
            won.undos.as_slice(),
        )?;
        self.branch.switch_to(won, &mut leaves);
        rise(
            &self.graph,
            &self.pruning,
            &mut self.branch,
            &mut self.messages,
        );
        note(&self.graph, &mut self.messages, pathless);
        add_found(&mut self.found, found);
        Ok(Moved {
            reverted: Moves::new(leaves),
            applied: Moves::new(comes),
        })
    }
}
