//! The calls that hear nothing.

ghost use Rattle.std.specs.Prelude.{◌≡◌, ◌<◌, ◌≤◌, ◌+◌, ◌^◌, ◌-◌, IfOk, IfErr, OnOk, OnErr};
ghost use Rattle.pad_patch.specs.Piece.{text_after};
ghost use Rattle.pad_message.specs.Kind.{IsInterval};
ghost use Rattle.client_outbox.specs.Outbox.{most_unacknowledged};
ghost use Rattle.client_copy.specs.Pad.{committed};
ghost use Rattle.client_requests.specs.State as requested;
ghost use Rattle.client_requests.specs.Refusal.{IsJoinCause, IsOpenCause, IsAskCause};
ghost use Rattle.client_requests.specs.Calls.{Joins, Leaves, Asks, Resends, without_connection};
ghost use Rattle.pad_client.specs.State.{ClientState, with_requests};
ghost use Rattle.pad_client.specs.Refusal.{IsEditCause};
ghost use Rattle.pad_client.specs.Calls.{Edits, with_interval};
ghost use Rattle.pad_client.specs.Repair.{with_answered};
ghost use Rattle.pad_client.specs.View.{StandsAs};

use crate::client::Client;
use crate::edit_refused::EditRefused;
use client_requests::ClientRefused;
use netflux_codec::{Channel, Since};
use pad_edge::{Wire, Wires};
use pad_patch::{Operation, UnitStore};
use std::alloc::Global;

impl<S: UnitStore> Client<S> {
    /// Joins a channel: the text that asks for it. `Joined` comes exactly if a channel is joined or being joined, and then
    /// `OtherChannel` exactly if the client has joined another one before.
    pub fn join(&mut self, alloc: Global, channel: Channel) -> Result<Wire, ClientRefused>
        requires { self.old.requests.last < 4294967000 }
        ensures joins { IfOk result (λ wire. (requests : requested.State) × Joins self.old.requests channel wire requests × (self.new ≡ with_requests requests self.old)) }
        ensures cause { IfErr result (IsJoinCause self.old.requests channel) }
        ensures unchanged { OnErr result (self.new ≡ self.old) }
    {
        self.requests.join(alloc, channel)
    }

    /// Leaves the channel: the text that asks for it. The client stays joined until that is acknowledged.
    pub fn leave(&mut self, alloc: Global) -> Result<Wire, ClientRefused>
        requires { self.old.requests.last < 4294967000 }
        ensures leaves { IfOk result (λ wire. (requests : requested.State) × Leaves self.old.requests wire requests × (self.new ≡ with_requests requests self.old)) }
        ensures cause { IfErr result (IsOpenCause self.old.requests) }
        ensures unchanged { OnErr result (self.new ≡ self.old) }
    {
        self.requests.leave(alloc)
    }

    /// Asks the keeper for a history of the channel: the text that asks for it.
    pub fn ask(&mut self, alloc: Global, from: Since) -> Result<Wire, ClientRefused>
        requires { self.old.requests.last < 4294967000 }
        ensures asks { IfOk result (λ wire. (requests : requested.State) × Asks self.old.requests from wire requests × (self.new ≡ with_requests requests self.old)) }
        ensures cause { IfErr result (IsAskCause self.old.requests) }
        ensures unchanged { OnErr result (self.new ≡ self.old) }
    {
        self.requests.ask(alloc, from)
    }

    /// Sends each message of the outbox again, in order, under new numbers: the texts, at most 64.
    pub fn resend(&mut self, alloc: Global) -> Result<Wires, ClientRefused>
        requires { self.old.requests.last < 4294967000 }
        ensures resends { IfOk result (λ wires. (requests : requested.State) × Resends self.old.requests wires requests × (self.new ≡ with_requests requests self.old)) }
        ensures cause { IfErr result (IsOpenCause self.old.requests) }
        ensures unchanged { OnErr result (self.new ≡ self.old) }
        ensures last { self.new.requests.last ≤ self.old.requests.last + most_unacknowledged }
    {
        let _count = self.requests.outbox().len();
        let wires = self.requests.resend(alloc)?;
        Ok(wires)
    }

    /// The connection is gone: the client is not joined and asks nothing, a running repair is given up with the old chain kept, and
    /// the outbox stays, not awaited. It takes no memory.
    pub fn lost(&mut self)
        ensures { self.new ≡ with_answered (without_connection self.old.requests) self.old }
    {
        self.requests.lost();
        self.repair = None;
    }

    /// Edits the shown text, which is the committed text with the work applied. The edit has the next stroke number. The first cause
    /// that holds is told, in their order, and nothing is changed then.
    pub fn edit(&mut self, alloc: Global, op: Operation) -> Result<(), EditRefused>
        requires { self.old.copy.strokes < 2 ^ 64 - 1 }
        ensures edits { OnOk result (Edits self.old.copy.pad.chain.branch.branch.units self.old op self.new) }
        ensures stands { OnOk result ((client : ClientState) → StandsAs self.old client → (after : ClientState) × Edits (committed client.copy.pad) client op after × StandsAs self.new after) }
        ensures cause { IfErr result (IsEditCause self.old.requests (text_after self.old.copy.work.patch self.old.copy.pad.chain.branch.branch.units) op) }
        ensures unchanged { OnErr result (self.new ≡ self.old) }
    {
        if self.requests.repairs() {
            return Err(EditRefused::Repairing);
        }
        let _units = self.copy.text();
        self.copy.edit(alloc, op)?;
        Ok(())
    }

    /// Sets the interval that the next checkpoint of this client has, in messages.
    pub fn set_interval(&mut self, interval: u16)
        requires { IsInterval interval }
        ensures { self.new ≡ with_interval interval self.old }
    {
        self.wanted = Some(interval);
    }
}
