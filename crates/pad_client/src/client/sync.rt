//! A sync.

ghost use Rattle.std.specs.Prelude.{◌≡◌, ◌≤◌, ◌<◌, ◌+◌, ◌↔◌, ◌⊎◌, ◌++◌, Some, length, IfOk, IfErr, IsTrue};
ghost use Rattle.pad_patch.specs.Misfit.{longest_text};
ghost use Rattle.pad_message.specs.Content.{most_operations};
ghost use Rattle.pad_graph.specs.declared.graph.TheConstants.{MOST_NAMES};
ghost use Rattle.client_outbox.specs.Outbox.{most_unacknowledged};
ghost use Rattle.client_requests.specs.Refusal.{IsOpen};
ghost use Rattle.client_copy.specs.View.{NoClash};
ghost use Rattle.pad_client.specs.State.{ClientState};
ghost use Rattle.pad_client.specs.Inside.Refused.{IsOpenSyncCause};
ghost use Rattle.pad_client.specs.Refusal.{MaySync, IsTooLong, IsSyncCause, IsNoMemory, messages_made};
ghost use Rattle.pad_client.specs.Sync.{Syncs, DiffersAfterSync, own_messages};
ghost use Rattle.pad_client.specs.View.{StandsAs};

use crate::client::Client;
use crate::sync_refused::SyncRefused;
use client_outbox::MOST_UNACKNOWLEDGED;
use client_requests::{ClientRefused, Requests};
use netflux_codec::Channel;
use pad_chain::Moves;
use pad_edge::Wires;
use pad_graph::MOST_NAMES;
use pad_message::MOST_OPERATIONS;
use pad_patch::{LONGEST_TEXT, Steps, UnitStore};
use std::alloc::{AllocError, Global};
use std::sync::ledger::Ledger;

/// The channel, if no repair runs and it is joined.
fn open_channel(requests: &Requests) -> Result<Channel, SyncRefused>
    ensures open { IfOk result (λ channel. IsOpen requests.now × (requests.now.channel ≡ Some channel)) }
    ensures cause { IfErr result (IsOpenSyncCause requests.now) }
{
    match requests.open_channel() {
        Ok(channel) => Ok(channel),
        Err(ClientRefused::Repairing) => Err(SyncRefused::Repairing),
        Err(ClientRefused::NoMemory(error)) => Err(SyncRefused::NoMemory(error)),
        Err(_) => Err(SyncRefused::NotJoined),
    }
}

/// Whether a text of this length, or a patch of so many operations, is longer than may be sent.
fn is_longer(units: usize, operations: usize) -> bool
    ensures { IsTrue result ↔ ((longest_text < units) ⊎ (most_operations < operations)) }
{
    units > LONGEST_TEXT || operations > MOST_OPERATIONS
}

/// Whether an outbox of so many messages would hold too many with those that are made.
fn overfills(unacknowledged: usize, made: usize) -> bool
    requires few { unacknowledged ≤ most_unacknowledged }
    requires made { made ≤ 2 }
    ensures { IsTrue result ↔ (most_unacknowledged < unacknowledged + made) }
{
    unacknowledged + made > MOST_UNACKNOWLEDGED
}

/// Whether too many names would be known, if so many are and those of what is made.
fn passes_known(known: u64, made: usize) -> bool
    requires few { known ≤ MOST_NAMES }
    requires made { made ≤ 2 }
    ensures { IsTrue result ↔ (MOST_NAMES < known + made) }
{
    known + made as u64 > MOST_NAMES
}

impl<S: UnitStore> Client<S> {
    /// Makes the client's own messages of its work, and gives the texts that send them: none of an empty work; else the patch message,
    /// and before it a checkpoint if one is due. The first cause that holds is told, in their order, and nothing is changed then.
    pub fn sync<L: Ledger>(
        &mut self,
        alloc: Global,
        steps: &mut Steps<L>,
    ) -> Result<Wires, SyncRefused>
        requires { self.old.requests.last < 4294967000 }
        ensures syncs { IfOk result (λ wires. (client : ClientState) → StandsAs self.old client → DiffersAfterSync client
            → (after : ClientState) × Syncs client wires after × StandsAs self.new after) }
        ensures as_sent { IfOk result (λ wires. (client : ClientState) → StandsAs self.old client → NoClash (own_messages self.new.requests.outbox ++ client.copy.pad.all)
            → (after : ClientState) × Syncs client wires after × StandsAs self.new after) }
        ensures cause { IfErr result (λ refused. (client : ClientState) → StandsAs self.old client → IsSyncCause client refused) }
        ensures unchanged { IfErr result (λ refused. (self.new ≡ self.old) ⊎ IsNoMemory refused) }
        ensures last { self.new.requests.last ≤ self.old.requests.last + 2 }
        ensures strokes { self.new.copy.strokes ≡ self.old.copy.strokes }
    {
        let (channel, made) = self.may_sync(alloc)?;
        self.synced = Moves::new(Vec::new(alloc));
        if made == 0 {
            return Ok(Wires::new(Vec::new(alloc)));
        }
        if made == 1 {
            return Ok(self.send_work(alloc, &channel, steps)?);
        }
        Ok(self.send_both(alloc, &channel, steps)?)
    }

    /// The channel, and how many messages a sync makes, if the client may sync.
    fn may_sync(&self, alloc: Global) -> Result<(Channel, usize), SyncRefused>
        ensures may { IfOk result (λ may. (client : ClientState) → StandsAs self.now client → MaySync client × (may.1 ≡ messages_made client)) }
        ensures its { IfOk result (λ may. self.now.requests.channel ≡ Some may.0) }
        ensures room { IfOk result (λ may. length self.now.requests.outbox + may.1 ≤ most_unacknowledged) }
        ensures cause { IfErr result (λ refused. (client : ClientState) → StandsAs self.now client → IsSyncCause client refused) }
    {
        let channel = open_channel(&self.requests)?;
        let long = self.is_too_long(alloc)?;
        if long {
            return Err(SyncRefused::TooLong);
        }
        let made = self.messages_made();
        let unacknowledged = self.requests.outbox().len();
        if overfills(unacknowledged, made) {
            return Err(SyncRefused::OutboxFull);
        }
        let known = self.copy.chain().known();
        if passes_known(known, made) {
            return Err(SyncRefused::Full);
        }
        Ok((channel, made))
    }

    /// Whether the shown text or the work is longer than may be sent.
    fn is_too_long(&self, alloc: Global) -> Result<bool, AllocError>
        ensures { IfOk result (λ long. (client : ClientState) → StandsAs self.now client → IsTrue long ↔ IsTooLong client) }
    {
        let patch = self.copy.work().patch(alloc)?;
        let shown = self.copy.shown(alloc)?;
        Ok(is_longer(shown.length(), patch.ops.as_slice().len()))
    }

    /// How many messages a sync makes.
    fn messages_made(&self) -> usize
        ensures made { (client : ClientState) → StandsAs self.now client → result ≡ messages_made client }
        ensures few { result ≤ 2 }
    {
        if self.copy.work().is_empty() {
            return 0;
        }
        if self.copy.chain().due() {
            return 2;
        }
        1
    }
}
