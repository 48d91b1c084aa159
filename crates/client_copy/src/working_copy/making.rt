//! Own messages are made.

ghost use Rattle.std.specs.Prelude.{◌≡◌, ◌≤◌, ◌+◌, ◌*◌, ℕ, List, [], ◌∷◌, length, true, Some, IfSome, IfOk, IfErr, OnOk, OnErr};
ghost use Rattle.std.specs.BTreeMap.{Updates};
ghost use Rattle.pad_patch.specs.Misfit.{longest_text};
ghost use Rattle.pad_message.specs.declared.kind.Kind.TheVariants as kind;
ghost use Rattle.pad_message.specs.declared.message.Message.{Message};
ghost use Rattle.pad_message.specs.Content.{most_operations};
ghost use Rattle.pad_message.specs.Kind.{IsInterval, HasInterval, is_checkpoint};
ghost use Rattle.pad_message.specs.Message.{name_of};
ghost use Rattle.pad_graph.specs.State.{name_cmp};
ghost use Rattle.pad_graph.specs.State as graph;
ghost use Rattle.pad_graph.specs.State.{state_of};
ghost use Rattle.pad_graph.specs.declared.graph.TheConstants.{MOST_NAMES};
ghost use Rattle.pad_graph.specs.declared.standing.Standing.TheVariants.{Unknown};
ghost use Rattle.pad_model.specs.declared.base.Base.{Base};
ghost use Rattle.pad_model.specs.Path.{NamesDiffer};
ghost use Rattle.pad_model.specs.Choice.{Choice};
ghost use Rattle.pad_chain.specs.declared.receive_refused.ReceiveRefused.TheVariants.{Full};
ghost use Rattle.pad_chain.specs.Tie.{StandsFor};
ghost use Rattle.pad_chain.specs.Receive.{IsReceived, IsWithin};
ghost use Rattle.pad_chain.specs.Knows.{Knows, IsFull};
ghost use Rattle.client_copy.specs.State.{Copy};
ghost use Rattle.client_copy.specs.Make.{IsCheckpointOf, IsPatchOf, Makes, next_interval};
ghost use Rattle.client_copy.specs.View.{NoClash, StandsAs};

use crate::working_copy::WorkingCopy;
use pad_chain::{Moved, ReceiveRefused, stood_is_known};
use pad_message::{Kind, Message};
use pad_patch::{Operation, Operations, Patch, Steps, UnitStore};
use pad_stroke::Work;
use pad_text::{Name, Text};
use std::alloc::{AllocError, Global};
use std::collections::BTreeMap;
use std::sync::ledger::Ledger;

/// Keeps the work that was sent as the message of this name, in place of an older one. If memory runs out, nothing is changed.
fn keep(sent: &mut BTreeMap<Name, Work>, name: Name, own: Work) -> Result<(), AllocError>
    ensures ok { OnOk result (Updates name_cmp sent.old sent.new name (Some own)) }
    ensures err { OnErr result (sent.new.entries ≡ sent.old.entries) }
{
    match sent.insert(name, own) {
        Ok(_) => Ok(()),
        Err(_) => Err(AllocError),
    }
}

/// The interval that is wanted, or else the one in force.
fn interval_of(wanted: Option<u16>, in_force: u16) -> u16
    requires wanted { IfSome wanted IsInterval }
    requires in_force { IsInterval in_force }
    ensures is { result ≡ next_interval wanted in_force }
    ensures may { IsInterval result }
{
    match wanted {
        Some(wanted) => wanted,
        None => in_force,
    }
}

/// All of a text.
fn whole_text<S: UnitStore>(alloc: Global, text: &S) -> Result<Text, AllocError>
    ensures { IfOk result (λ whole. whole ≡ S.units text.now) }
{
    text.read(alloc, 0, text.length())
}

/// The single operation that puts a text in its own place.
fn in_its_place(alloc: Global, insert: Text) -> Result<Operations, AllocError>
    requires { length insert ≤ longest_text }
    ensures { IfOk result (λ ops. ops ≡ record { offset = 0; remove = length insert; insert = insert } ∷ []) }
{
    let mut ops = Vec::new(alloc);
    ops.push(Operation {
        offset: 0,
        remove: insert.len() as u32,
        insert,
    })?;
    Ok(Operations::new(ops))
}

impl<S: UnitStore> WorkingCopy<S> {
    /// The patch message of the work.
    pub fn patch_message(&self, alloc: Global) -> Result<Message, AllocError>
        ensures is { IfOk result (λ message. (copy : Copy) → StandsAs self.now copy → IsPatchOf copy message) }
        ensures plain { IfOk result (λ message. message.kind ≡ kind.Patch) }
        ensures patch { IfOk result (λ message. message.patch ≡ self.now.work.patch) }
    {
        Ok(Message {
            kind: Kind::Patch,
            patch: self.work.patch(alloc)?,
            parent: self.chain.best().name,
        })
    }

    /// The checkpoint of the committed text, with this interval, or else the one in force.
    pub fn checkpoint(&self, alloc: Global, wanted: Option<u16>) -> Result<Message, AllocError>
        requires { IfSome wanted IsInterval }
        ensures is { IfOk result (λ message. (copy : Copy) → StandsAs self.now copy → IsCheckpointOf copy wanted message) }
        ensures kind { IfOk result (λ message. is_checkpoint message.kind ≡ true) }
        ensures interval { IfOk result (λ message. HasInterval message.kind) }
        ensures few { IfOk result (λ message. length message.patch.ops ≤ most_operations) }
    {
        let insert = whole_text(alloc, self.chain.text())?;
        let interval = interval_of(wanted, self.chain.interval());
        let ops = in_its_place(alloc, insert)?;
        Ok(Message {
            kind: Kind::Checkpoint(interval),
            patch: Patch {
                ops,
                before: self.chain.hash(),
            },
            parent: self.chain.best().name,
        })
    }

    /// Makes the patch message of the work the client's own: the chain receives it, the work follows what moved, and it is kept as
    /// what was sent as the message. `Full` comes as in `receive`. If it fails, the working copy may only be dropped.
    pub fn make_patch<L: Ledger>(
        &mut self,
        alloc: Global,
        name: Name,
        message: Message,
        steps: &mut Steps<L>,
    ) -> Result<Moved, ReceiveRefused>
        requires named { name ≡ name_of message }
        requires plain { message.kind ≡ kind.Patch }
        requires patch { message.patch ≡ self.old.work.patch }
        ensures makes { IfOk result (λ moved. (copy : Copy) → StandsAs self.old copy → NoClash (message ∷ copy.pad.all)
            → (after : Copy) × Makes copy message moved after × StandsAs self.new after) }
        ensures rest { self.new ≡ record self.old { pad = record self.old.pad { chain = self.new.pad.chain }; work = self.new.work; sent = self.new.sent } }

        // What the chain says, whatever the names are.
        ensures stands { IfOk result (λ moved. (base : Base) (received : List Message) (choice : Choice) → NamesDiffer (message ∷ received) → StandsFor self.old.pad.chain base received choice
            → IsReceived self.old.pad.chain self.new.pad.chain base received message choice moved) }
        ensures whole { self.new.pad.chain.whole ≡ self.old.pad.chain.whole }
        ensures knows { OnOk result ((base : Base) (received : List Message) → Knows self.old.pad.chain base received → Knows self.new.pad.chain base (message ∷ received)) }
        ensures grows { (base : Base) (received : List Message) → Knows self.old.pad.chain base received → self.new.pad.chain.graph.known ≤ self.old.pad.chain.graph.known + 1 }

        // `Full`: where the name is new and as many names are known as there may be, whatever the names are.
        ensures full { IfErr result (λ refused. refused ≡ Full → (copy : Copy) → StandsAs self.old copy → IsFull copy.pad.base copy.pad.received message) }
        ensures limit { IfErr result (λ refused. refused ≡ Full → (base : Base) (received : List Message) → Knows self.old.pad.chain base received → IsFull base received message) }
        ensures filled { IfErr result (λ refused. refused ≡ Full → (graph.standing (state_of self.old.pad.chain.graph) name ≡ Unknown) × (self.old.pad.chain.graph.known ≡ MOST_NAMES)) }
        ensures room { OnOk result ((copy : Copy) → StandsAs self.old copy → ¬ (IsFull copy.pad.base copy.pad.received message)) }
        ensures space { graph.standing (state_of self.old.pad.chain.graph) name ≡ Unknown → self.old.pad.chain.graph.known ≡ MOST_NAMES → OnOk result ⊥ }
        ensures elsewhere { OnOk result ((base : Base) (received : List Message) → Knows self.old.pad.chain base received → ¬ (IsFull base received message)) }

        // The steps are the chain's.
        ensures first { IfOk result (λ moved. length self.new.pad.chain.found ≡ length self.old.pad.chain.found → steps.new ≤ steps.old + length moved.reverted + 2 * length moved.applied) }
        ensures cost { OnOk result ((base : Base) (received : List Message) (choice : Choice) (depth rise : ℕ) → StandsFor self.old.pad.chain base received choice → IsWithin base (message ∷ received) choice.root depth
            → length self.new.pad.chain.found ≡ length self.old.pad.chain.found + rise → steps.new ≤ steps.old + 3 * depth * (rise + 1)) }
        ensures unstepped { IfErr result (λ refused. refused ≡ Full → steps.new ≡ steps.old) }
    {
        stood_is_known();
        let own = self.work.copy(alloc)?;
        keep(&mut self.sent, name, own)?;
        self.receive(alloc, name, message, steps)
    }
}
