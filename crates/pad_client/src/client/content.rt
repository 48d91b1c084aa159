//! A content that is heard for the client's channel.

ghost use Rattle.std.specs.Prelude.{◌≡◌, ◌↔◌, ◌+◌, ◌-◌, ◌^◌, min, [], ◌∷◌, ◌≤◌, true, None, IfOk, IfErr, OnOk, IsTrue, IsFalse, length};
ghost use Rattle.pad_message.specs.declared.message.Message.{Message};
ghost use Rattle.pad_message.specs.Content.{Reads, most_operations};
ghost use Rattle.pad_message.specs.Message.{name_of};
ghost use Rattle.pad_message.specs.Kind.{HasInterval};
ghost use Rattle.pad_model.specs.declared.base.Base.{Base};
ghost use Rattle.pad_model.specs.Base.{Gives};
ghost use Rattle.client_copy.specs.State.{Copy};
ghost use Rattle.client_copy.specs.Receive.{Follows};
ghost use Rattle.client_copy.specs.Adopt.{Adopts};
ghost use Rattle.client_copy.specs.View.{NoClash};
ghost use Rattle.client_requests.specs.State.{is_fresh};
ghost use Rattle.pad_client.specs.declared.hear_refused.HearRefused.TheVariants.{Full};
ghost use Rattle.pad_client.specs.Content.{MayBeAdopted, IsAdopted, MeetsFull, after_content, after_message, HearsMessage, HearsContent};
ghost use Rattle.pad_client.specs.State.{ClientState};
ghost use Rattle.pad_client.specs.View.{DiffersAfterContent, StandsAs, StandsStill};

use crate::client::Client;
use crate::hear_refused::HearRefused;
use crate::heard::Heard;
use client_requests::{Asked, Requests};
use pad_chain::Moved;
use pad_message::{Message, ReadRefused};
use pad_patch::{Steps, UnitStore};
use pad_text::Name;
use std::alloc::{AllocError, Global};
use std::sync::ledger::Ledger;

/// Whether a default history is asked of which no entry was heard yet.
fn is_fresh(requests: &Requests) -> bool
    ensures { result ≡ is_fresh requests.now.asked }
{
    match requests.asked() {
        Asked::History(_, fresh) => fresh,
        Asked::Nothing | Asked::Repair(_) => false,
    }
}

/// Whether this is the first entry that was heard of a default history.
fn is_first_entry(requests: &Requests, entry: bool) -> bool
    ensures { IsTrue result ↔ ((entry ≡ true) × (is_fresh requests.now.asked ≡ true)) }
{
    entry && is_fresh(requests)
}

/// A content was heard that spells no message.
fn use_content(requests: &mut Requests, entry: bool)
    ensures used { requests.new ≡ after_content entry requests.old }
    ensures last { requests.new.last ≡ requests.old.last }
{
    if entry {
        requests.hear_entry();
    }
}

/// A message of this name was heard.
pub(crate) fn use_message(requests: &mut Requests, name: &Name, entry: bool)
    ensures used { (message : Message) → name.now ≡ name_of message → requests.new ≡ after_message entry message requests.old }
    ensures last { requests.new.last ≡ requests.old.last }
{
    if entry {
        requests.hear_entry_of(name);
    }
}

impl<S: UnitStore> Client<S> {
    /// Takes a content for the channel; `entry` tells whether it is an entry of a history.
    pub(crate) fn take<L: Ledger>(
        &mut self,
        alloc: Global,
        content: &str,
        entry: bool,
        steps: &mut Steps<L>,
    ) -> Result<Heard, HearRefused>
        ensures hears { IfOk result (λ answer. (client : ClientState) → StandsAs self.old client → DiffersAfterContent client content.now
            → (after : ClientState) × HearsContent client entry content.now answer after × StandsAs self.new after) }
        ensures full { IfErr result (λ refused. refused ≡ Full → (client : ClientState) → StandsAs self.old client → (message : Message) × Reads content.now message × MeetsFull client message) }
        ensures still { IfErr result (λ refused. refused ≡ Full → StandsStill self.old self.new) }
        ensures last { self.new.requests.last ≡ self.old.requests.last }
        ensures strokes { self.new.copy.strokes ≡ self.old.copy.strokes }
    {
        match Message::read(alloc, content) {
            Ok(message) => self.take_message(alloc, message, entry, steps),
            Err(ReadRefused::Unreadable) => {
                self.count_unreadable(entry);
                Ok(Heard::Unreadable)
            }
            Err(ReadRefused::NoMemory(error)) => Err(HearRefused::NoMemory(error)),
        }
    }

    /// Counts a content that spells no message, up to 2^64 - 1.
    fn count_unreadable(&mut self, entry: bool)
        ensures { self.new ≡ record self.old { unreadable = min (self.old.unreadable + 1) (2 ^ 64 - 1); requests = after_content entry self.old.requests } }
    {
        self.unreadable = self.unreadable.saturating_add(1);
        use_content(&mut self.requests, entry);
    }

    /// Takes a message for the channel.
    fn take_message<L: Ledger>(
        &mut self,
        alloc: Global,
        message: Message,
        entry: bool,
        steps: &mut Steps<L>,
    ) -> Result<Heard, HearRefused>
        requires few { length message.patch.ops ≤ most_operations }
        requires interval { HasInterval message.kind }
        ensures hears { IfOk result (λ answer. (client : ClientState) → StandsAs self.old client → NoClash client.copy.pad.all → NoClash (message ∷ client.copy.pad.all)
            → (after : ClientState) × HearsMessage client entry message answer after × StandsAs self.new after) }
        ensures full { IfErr result (λ refused. refused ≡ Full → (client : ClientState) → StandsAs self.old client → MeetsFull client message) }
        ensures still { IfErr result (λ refused. refused ≡ Full → StandsStill self.old self.new) }
        ensures last { self.new.requests.last ≡ self.old.requests.last }
        ensures strokes { self.new.copy.strokes ≡ self.old.copy.strokes }
    {
        let name = message.name(alloc)?;
        match self.repair.take() {
            Some(repair) => self.note(alloc, repair, name, message, entry, steps),
            None => self.take_in(alloc, name, message, entry, steps),
        }
    }

    /// Takes the message of this name for the channel, while no repair runs.
    fn take_in<L: Ledger>(
        &mut self,
        alloc: Global,
        name: Name,
        message: Message,
        entry: bool,
        steps: &mut Steps<L>,
    ) -> Result<Heard, HearRefused>
        requires none { self.old.repair ≡ None }
        requires named { name ≡ name_of message }
        requires interval { HasInterval message.kind }
        ensures hears { IfOk result (λ answer. (client : ClientState) → StandsAs self.old client → NoClash client.copy.pad.all → NoClash (message ∷ client.copy.pad.all)
            → (after : ClientState) × HearsMessage client entry message answer after × StandsAs self.new after) }
        ensures full { IfErr result (λ refused. refused ≡ Full → (client : ClientState) → StandsAs self.old client → MeetsFull client message) }
        ensures still { IfErr result (λ refused. refused ≡ Full → StandsStill self.old self.new) }
        ensures last { self.new.requests.last ≡ self.old.requests.last }
        ensures strokes { self.new.copy.strokes ≡ self.old.copy.strokes }
    {
        let adopted = self.adopt(alloc, &name, &message, entry)?;
        if adopted {
            return Ok(Heard::Adopted);
        }
        let moved = self.receive(alloc, name, message, entry, steps)?;
        Ok(Heard::Content(moved))
    }

    /// Takes the message of this name for the base, if it is an entry that may be adopted and can be one. True if it was adopted.
    fn adopt(
        &mut self,
        alloc: Global,
        name: &Name,
        message: &Message,
        entry: bool,
    ) -> Result<bool, AllocError>
        requires named { name.now ≡ name_of message.now }
        requires interval { HasInterval message.now.kind }
        ensures adopts { IfOk result (λ adopted. IsTrue adopted → (client : ClientState) → StandsAs self.old client → NoClash client.copy.pad.all → NoClash (message.now ∷ client.copy.pad.all)
            → (copy : Copy) × IsAdopted client entry message.now × Adopts client.copy message.now copy
            × StandsAs self.new (record client { copy = copy; requests = after_message entry message.now client.requests })) }
        ensures refuses { IfOk result (λ adopted. IsFalse adopted → (self.new ≡ self.old) × ((client : ClientState) → StandsAs self.old client → NoClash client.copy.pad.all → ¬ (IsAdopted client entry message.now))) }
        ensures last { self.new.requests.last ≡ self.old.requests.last }
        ensures strokes { self.new.copy.strokes ≡ self.old.copy.strokes }
    {
        if self.may_adopt(entry) {
            return self.adopt_entry(alloc, name, message);
        }
        Ok(false)
    }

    /// Takes an entry of this name for the base, if it can be one. True if it was adopted.
    fn adopt_entry(
        &mut self,
        alloc: Global,
        name: &Name,
        message: &Message,
    ) -> Result<bool, AllocError>
        requires named { name.now ≡ name_of message.now }
        requires interval { HasInterval message.now.kind }
        requires empty { self.old.copy.pad.chain.branch.branch.units ≡ [] }
        ensures adopts { IfOk result (λ adopted. IsTrue adopted → (client : ClientState) → StandsAs self.old client → NoClash (message.now ∷ client.copy.pad.all)
            → (copy : Copy) × Adopts client.copy message.now copy × StandsAs self.new (record client { copy = copy; requests = after_message true message.now client.requests })) }
        ensures refuses { IfOk result (λ adopted. IsFalse adopted → (self.new ≡ self.old) × ((base : Base) → ¬ (Gives message.now base))) }
        ensures last { self.new.requests.last ≡ self.old.requests.last }
        ensures strokes { self.new.copy.strokes ≡ self.old.copy.strokes }
    {
        let adopted = self.copy.adopt(alloc, message)?;
        if adopted {
            self.requests.hear_entry_of(name);
        }
        Ok(adopted)
    }

    /// Whether a message may be adopted: it is the first entry that was heard of a default history, and nothing was received before.
    fn may_adopt(&self, entry: bool) -> bool
        ensures may { (client : ClientState) → StandsAs self.now client → NoClash client.copy.pad.all → IsTrue result ↔ MayBeAdopted client entry }
        ensures empty { IsTrue result → self.now.copy.pad.chain.branch.branch.units ≡ [] }
    {
        if is_first_entry(&self.requests, entry) {
            return self.copy.may_adopt();
        }
        false
    }

    /// Receives the message of this name while no repair runs, and the work follows what moved.
    fn receive<L: Ledger>(
        &mut self,
        alloc: Global,
        name: Name,
        message: Message,
        entry: bool,
        steps: &mut Steps<L>,
    ) -> Result<Moved, HearRefused>
        requires none { self.old.repair ≡ None }
        requires named { name ≡ name_of message }
        requires interval { HasInterval message.kind }
        ensures receives { IfOk result (λ moved. (client : ClientState) → StandsAs self.old client → NoClash (message ∷ client.copy.pad.all)
            → (copy : Copy) × Follows client.copy message moved copy × StandsAs self.new (record client { copy = copy; requests = after_message entry message client.requests })) }
        ensures room { OnOk result ((client : ClientState) → StandsAs self.old client → ¬ (MeetsFull client message)) }
        ensures full { IfErr result (λ refused. refused ≡ Full → (client : ClientState) → StandsAs self.old client → MeetsFull client message) }
        ensures still { IfErr result (λ refused. refused ≡ Full → StandsStill self.old self.new) }
        ensures last { self.new.requests.last ≡ self.old.requests.last }
        ensures strokes { self.new.copy.strokes ≡ self.old.copy.strokes }
    {
        let moved = self.copy.receive(alloc, name, message, steps)?;
        use_message(&mut self.requests, &name, entry);
        Ok(moved)
    }
}
