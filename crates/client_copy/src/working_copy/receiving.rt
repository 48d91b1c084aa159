//! The chain receives a message, and the work follows.

ghost use Rattle.std.specs.Prelude.{◌≡◌, ◌≤◌, ◌+◌, ◌*◌, ℕ, List, ◌∷◌, length, IfOk, IfErr, OnOk};
ghost use Rattle.pad_message.specs.declared.message.Message.{Message};
ghost use Rattle.pad_message.specs.Kind.{HasInterval};
ghost use Rattle.pad_message.specs.Message.{name_of};
ghost use Rattle.pad_graph.specs.State as graph;
ghost use Rattle.pad_graph.specs.State.{state_of};
ghost use Rattle.pad_graph.specs.declared.graph.TheConstants.{MOST_NAMES};
ghost use Rattle.pad_graph.specs.declared.standing.Standing.TheVariants.{Unknown};
ghost use Rattle.pad_model.specs.declared.base.Base.{Base};
ghost use Rattle.pad_model.specs.Path.{NamesDiffer};
ghost use Rattle.pad_model.specs.Choice.{Choice};
ghost use Rattle.pad_chain.specs.declared.receive_refused.ReceiveRefused.TheVariants.{Full};
ghost use Rattle.pad_chain.specs.Tie.{StandsFor};
ghost use Rattle.pad_chain.specs.Receive.{IsReceived, IsUntouched, IsWithin};
ghost use Rattle.pad_chain.specs.Knows.{Knows, IsFull};
ghost use Rattle.client_copy.specs.State.{Copy};
ghost use Rattle.client_copy.specs.Receive.{Follows};
ghost use Rattle.client_copy.specs.View.{NoClash, StandsAs, StandsStill};

use crate::carrying::{bring_along, has_text};
use crate::working_copy::WorkingCopy;
use pad_chain::{Moved, ReceiveRefused, stood_is_known};
use pad_message::Message;
use pad_patch::laws::{fitting_applies, inverse_gives_back};
use pad_patch::{Steps, UnitStore};
use pad_stroke::Work;
use pad_text::Name;
use std::alloc::Global;
use std::sync::ledger::Ledger;

impl<S: UnitStore> WorkingCopy<S> {
    /// The chain receives a message, and the work follows what moved. `Full` comes where the message's name is new and as many
    /// names are known as there may be, and only there; then chain and work are as they were. If memory runs out
    /// on the way, the work is empty: the working copy may only be dropped then.
    pub fn receive<L: Ledger>(
        &mut self,
        alloc: Global,
        name: Name,
        message: Message,
        steps: &mut Steps<L>,
    ) -> Result<Moved, ReceiveRefused>
        requires named { name ≡ name_of message }
        requires interval { HasInterval message.kind }
        ensures follows { IfOk result (λ moved. (copy : Copy) → StandsAs self.old copy → NoClash (message ∷ copy.pad.all)
            → (after : Copy) × Follows copy message moved after × StandsAs self.new after) }
        ensures rest { self.new ≡ record self.old { pad = record self.old.pad { chain = self.new.pad.chain }; work = self.new.work } }

        // What the chain says, whatever the names are.
        ensures stands { IfOk result (λ moved. (base : Base) (received : List Message) (choice : Choice) → NamesDiffer (message ∷ received) → StandsFor self.old.pad.chain base received choice
            → IsReceived self.old.pad.chain self.new.pad.chain base received message choice moved) }
        ensures whole { self.new.pad.chain.whole ≡ self.old.pad.chain.whole }
        ensures knows { OnOk result ((base : Base) (received : List Message) → Knows self.old.pad.chain base received → Knows self.new.pad.chain base (message ∷ received)) }
        ensures grows { (base : Base) (received : List Message) → Knows self.old.pad.chain base received → self.new.pad.chain.graph.known ≤ self.old.pad.chain.graph.known + 1 }

        // `Full`: where the name is new and as many names are known as there may be, whatever the names are.
        ensures full { IfErr result (λ refused. refused ≡ Full → (copy : Copy) → StandsAs self.old copy → IsFull copy.pad.base copy.pad.received message) }
        ensures limit { IfErr result (λ refused. refused ≡ Full → (base : Base) (received : List Message) → Knows self.old.pad.chain base received → IsFull base received message) }
        ensures filled { IfErr result (λ refused. refused ≡ Full → (graph.standing (state_of self.old.pad.chain.graph) name ≡ Unknown) × (self.old.pad.chain.graph.known ≡ MOST_NAMES)) }
        ensures room { OnOk result ((copy : Copy) → StandsAs self.old copy → ¬ (IsFull copy.pad.base copy.pad.received message)) }
        ensures space { graph.standing (state_of self.old.pad.chain.graph) name ≡ Unknown → self.old.pad.chain.graph.known ≡ MOST_NAMES → OnOk result ⊥ }
        ensures elsewhere { OnOk result ((base : Base) (received : List Message) → Knows self.old.pad.chain base received → ¬ (IsFull base received message)) }
        ensures untouched { IfErr result (λ refused. refused ≡ Full → (self.new.work ≡ self.old.work) × IsUntouched self.old.pad.chain self.new.pad.chain) }
        ensures still { IfErr result (λ refused. refused ≡ Full → StandsStill self.old self.new) }
        ensures knows_still { IfErr result (λ refused. refused ≡ Full → (base : Base) (received : List Message) → Knows self.old.pad.chain base received → Knows self.new.pad.chain base received) }

        // The steps are the chain's.
        ensures first { IfOk result (λ moved. length self.new.pad.chain.found ≡ length self.old.pad.chain.found → steps.new ≤ steps.old + length moved.reverted + 2 * length moved.applied) }
        ensures cost { OnOk result ((base : Base) (received : List Message) (choice : Choice) (depth rise : ℕ) → StandsFor self.old.pad.chain base received choice → IsWithin base (message ∷ received) choice.root depth
            → length self.new.pad.chain.found ≡ length self.old.pad.chain.found + rise → steps.new ≤ steps.old + 3 * depth * (rise + 1)) }
        ensures unstepped { IfErr result (λ refused. refused ≡ Full → steps.new ≡ steps.old) }
    {
        stood_is_known();
        fitting_applies();
        inverse_gives_back();
        let spare = Work::new(alloc, self.chain.hash())?;
        let size = self.chain.text().length();
        let moved = self.chain.receive_named(alloc, name, message, steps)?;
        has_text(&self.chain);
        let end = self.chain.hash();
        let mut spare = spare;
        spare.move_to(end);
        bring_along(alloc, &mut self.work, spare, &self.sent, &moved, size, &end)?;
        Ok(moved)
    }
}
