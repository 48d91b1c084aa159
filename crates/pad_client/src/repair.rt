//! What a repair receives while it runs.

ghost use Rattle.std.specs.Prelude.{◌≡◌, List, [], ◌∷◌, true, IfOk, IfErr, OnOk, OnErr};
ghost use Rattle.pad_message.specs.declared.message.Message.{Message};
ghost use Rattle.pad_message.specs.Kind.{HasInterval};
ghost use Rattle.pad_message.specs.Message.{name_of};
ghost use Rattle.pad_model.specs.Base.{first_base};
ghost use Rattle.pad_model.specs.Path.{NamesDiffer};
ghost use Rattle.pad_model.specs.Choice.{Choice, first_choice};
ghost use Rattle.pad_chain.specs.declared.receive_refused.ReceiveRefused.TheVariants.{Full};
ghost use Rattle.pad_chain.specs.Knows.{IsFull};
ghost use Rattle.pad_chain.specs.Tie.{StandsFor};

use pad_chain::{Chain, ReceiveRefused, stood_is_known};
use pad_message::Message;
use pad_patch::{Steps, UnitStore};
use pad_text::Name;
use std::alloc::{AllocError, Global};
use std::marker::Model;
use std::sync::ledger::Ledger;

/// The chain of a repair that runs. It begins at the first base, and never truncates. Contracts see the chain.
#[derive(Drop)]
pub struct Repair<S: UnitStore> {
    chain: Chain<S>,
}

impl<S: UnitStore> Model for Repair<S> {
    ghost use Rattle.std.specs.Prelude.{◌≡◌, true};
    ghost use Rattle.pad_chain.specs.State.{View};

    ghost Value = { View };

    ghost view = { λ repair. repair.chain };

    ghost invariant = { λ repair. repair.chain.whole ≡ true };
}

impl<S: UnitStore> Repair<S> {
    /// A repair that has received nothing.
    pub(crate) fn new(alloc: Global) -> Result<Repair<S>, AllocError>
        ensures stands { IfOk result (λ repair. StandsFor repair first_base [] first_choice) }
        ensures whole { IfOk result (λ repair. repair.whole ≡ true) }
    {
        let chain = Chain::whole(alloc)?;
        Ok(Repair { chain })
    }

    /// Receives the message of this name. `Full` comes where the name is new and as many names are known as there may be, and only
    /// there. If it fails, the repair has received what it had.
    pub(crate) fn receive<L: Ledger>(
        &mut self,
        alloc: Global,
        name: Name,
        message: Message,
        steps: &mut Steps<L>,
    ) -> Result<(), ReceiveRefused>
        requires named { name ≡ name_of message }
        requires interval { HasInterval message.kind }
        ensures stands { OnOk result ((received : List Message) (choice : Choice) → NamesDiffer (message ∷ received) → StandsFor self.old first_base received choice
            → (next : Choice) × StandsFor self.new first_base (message ∷ received) next) }
        ensures whole { self.new.whole ≡ true }
        ensures full { IfErr result (λ refused. refused ≡ Full → (received : List Message) (choice : Choice) → StandsFor self.old first_base received choice → IsFull first_base received message) }
        ensures room { OnOk result ((received : List Message) (choice : Choice) → StandsFor self.old first_base received choice → ¬ (IsFull first_base received message)) }
        ensures still { OnErr result ((received : List Message) (choice : Choice) → StandsFor self.old first_base received choice → StandsFor self.new first_base received choice) }
    {
        stood_is_known();
        self.chain.receive_named(alloc, name, message, steps)?;
        Ok(())
    }

    /// The chain, which never truncates.
    pub(crate) fn into_chain(self) -> Chain<S>
        ensures is { result ≡ self }
        ensures whole { result.whole ≡ true }
    {
        self.chain
    }
}
