//! An own message is made, received and sent.

ghost use Rattle.std.specs.Prelude.{◌≡◌, ◌≤◌, ◌<◌, ◌+◌, ◌++◌, ◌∷◌, length, None, Some, IfOk, OnOk};
ghost use Rattle.pad_message.specs.declared.message.Message.{Message};
ghost use Rattle.client_outbox.specs.Outbox.{most_unacknowledged};
ghost use Rattle.client_copy.specs.Make.{IsCheckpointOf, IsPatchOf};
ghost use Rattle.client_copy.specs.View.{NoClash};
ghost use Rattle.client_requests.specs.Calls.{Sends};
ghost use Rattle.pad_client.specs.State.{ClientState};
ghost use Rattle.pad_client.specs.Inside.Made.{WorkHasName, BothHaveNames};
ghost use Rattle.pad_client.specs.Sync.{Makes, SendsWork, SendsBoth};
ghost use Rattle.pad_client.specs.View.{StandsAs};

use crate::client::Client;
use client_copy::laws::checkpoints_are_made;
use netflux_codec::Channel;
use pad_chain::Moves;
use pad_edge::{Wire, Wires};
use pad_message::{MOST_OPERATIONS, Message};
use pad_patch::{Steps, UnitStore};
use std::alloc::{AllocError, Global};
use std::sync::ledger::Ledger;

/// Adds moves at the end.
fn add_moves(alloc: Global, all: &mut Moves, moves: Moves) -> Result<(), AllocError>
    ensures { OnOk result (all.new ≡ all.old ++ moves) }
{
    let mut items = std::mem::replace(all, Moves::new(Vec::new(alloc))).into_vec();
    for step in moves.into_vec() {
        items.push(step)?;
    }
    *all = Moves::new(items);
    Ok(())
}

/// A copy of a message.
pub(crate) fn copy_of(alloc: Global, message: &Message) -> Result<Message, AllocError>
    ensures { IfOk result (λ copy. copy ≡ message.now) }
{
    Ok(Message {
        kind: message.kind,
        patch: message.patch.copy(alloc)?,
        parent: message.parent,
    })
}

impl<S: UnitStore> Client<S> {
    /// Makes the patch message of the work: the text that sends it.
    pub(crate) fn send_work<L: Ledger>(
        &mut self,
        alloc: Global,
        channel: &Channel,
        steps: &mut Steps<L>,
    ) -> Result<Wires, AllocError>
        requires number { self.old.requests.last < 4294967000 }
        requires room { length self.old.requests.outbox + 1 ≤ most_unacknowledged }
        requires its { self.old.requests.channel ≡ Some channel.now }
        ensures sends { IfOk result (λ wires. (client : ClientState) → StandsAs self.old client → WorkHasName client self.new.requests
            → (after : ClientState) × SendsWork client wires after × StandsAs self.new after) }
        ensures last { self.new.requests.last ≤ self.old.requests.last + 1 }
        ensures strokes { self.new.copy.strokes ≡ self.old.copy.strokes }
    {
        let text = self.make_patch(alloc, channel, steps)?;
        let mut texts = Vec::new(alloc);
        texts.push(text)?;
        Ok(Wires::new(texts))
    }

    /// Makes a checkpoint and then the patch message of the work: the texts that send them.
    pub(crate) fn send_both<L: Ledger>(
        &mut self,
        alloc: Global,
        channel: &Channel,
        steps: &mut Steps<L>,
    ) -> Result<Wires, AllocError>
        requires number { self.old.requests.last < 4294967000 }
        requires room { length self.old.requests.outbox + 2 ≤ most_unacknowledged }
        requires its { self.old.requests.channel ≡ Some channel.now }
        ensures sends { IfOk result (λ wires. (client : ClientState) → StandsAs self.old client → BothHaveNames client self.new.requests
            → (after : ClientState) × SendsBoth client wires after × StandsAs self.new after) }
        ensures last { self.new.requests.last ≤ self.old.requests.last + 2 }
        ensures strokes { self.new.copy.strokes ≡ self.old.copy.strokes }
    {
        let first = self.make_checkpoint(alloc, channel, steps)?;
        let second = self.make_patch(alloc, channel, steps)?;
        let mut texts = Vec::new(alloc);
        texts.push(first)?;
        texts.push(second)?;
        Ok(Wires::new(texts))
    }

    /// Makes the checkpoint of the committed text, which carries the interval that the user set: the text that sends it.
    fn make_checkpoint<L: Ledger>(
        &mut self,
        alloc: Global,
        channel: &Channel,
        steps: &mut Steps<L>,
    ) -> Result<Wire, AllocError>
        requires number { self.old.requests.last < 4294967100 }
        requires room { length self.old.requests.outbox < most_unacknowledged }
        requires its { self.old.requests.channel ≡ Some channel.now }
        ensures makes { IfOk result (λ wire. (message : Message) × Sends self.old.requests message wire self.new.requests
            × ((client : ClientState) → StandsAs self.old client → IsCheckpointOf client.copy client.wanted message
            × (NoClash (message ∷ client.copy.pad.all) → (after : ClientState) × Makes client message wire after × StandsAs self.new (record after { wanted = None })))) }
        ensures last { self.new.requests.last ≤ self.old.requests.last + 1 }
        ensures strokes { self.new.copy.strokes ≡ self.old.copy.strokes }
    {
        checkpoints_are_made();
        let message = self.copy.checkpoint(alloc, self.wanted)?;
        let name = message.name(alloc)?;
        let received = copy_of(alloc, &message)?;
        let wire = self.requests.send(alloc, channel, name, message)?;
        let Ok(moved) = self.copy.receive(alloc, name, received, steps) else {
            return Err(AllocError);
        };
        add_moves(alloc, &mut self.synced, moved.applied)?;
        self.wanted = None;
        Ok(wire)
    }

    /// Makes the patch message of the work: the text that sends it. It fails, too, if messages that came on with a checkpoint have cut
    /// the work into too many operations.
    fn make_patch<L: Ledger>(
        &mut self,
        alloc: Global,
        channel: &Channel,
        steps: &mut Steps<L>,
    ) -> Result<Wire, AllocError>
        requires number { self.old.requests.last < 4294967100 }
        requires room { length self.old.requests.outbox < most_unacknowledged }
        requires its { self.old.requests.channel ≡ Some channel.now }
        ensures makes { IfOk result (λ wire. (message : Message) × Sends self.old.requests message wire self.new.requests
            × ((client : ClientState) → StandsAs self.old client → IsPatchOf client.copy message
            × (NoClash (message ∷ client.copy.pad.all) → (after : ClientState) × Makes client message wire after × StandsAs self.new after))) }
        ensures last { self.new.requests.last ≤ self.old.requests.last + 1 }
        ensures strokes { self.new.copy.strokes ≡ self.old.copy.strokes }
    {
        let message = self.copy.patch_message(alloc)?;
        if message.patch.ops.as_slice().len() > MOST_OPERATIONS {
            return Err(AllocError);
        }
        let name = message.name(alloc)?;
        let received = copy_of(alloc, &message)?;
        let wire = self.requests.send(alloc, channel, name, message)?;
        let Ok(moved) = self.copy.make_patch(alloc, name, received, steps) else {
            return Err(AllocError);
        };
        add_moves(alloc, &mut self.synced, moved.applied)?;
        Ok(wire)
    }
}
