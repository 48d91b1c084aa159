//! A repair: it begins, receives, and ends.

ghost use Rattle.std.specs.Prelude.{◌≡◌, ◌≢◌, ◌<◌, ◌≤◌, ◌+◌, ◌++◌, ◌∷◌, Bool, true, List, Some, None, IfOk, IfErr, OnOk, OnErr};
ghost use Rattle.pad_message.specs.declared.message.Message.{Message};
ghost use Rattle.pad_message.specs.Kind.{HasInterval};
ghost use Rattle.pad_message.specs.Message.{name_of};
ghost use Rattle.pad_model.specs.Base.{first_base};
ghost use Rattle.pad_model.specs.Path.{NamesDiffer};
ghost use Rattle.pad_model.specs.Choice.{Choice};
ghost use Rattle.pad_chain.specs.Tie.{StandsFor};
ghost use Rattle.client_copy.specs.View.{NoClash};
ghost use Rattle.client_requests.specs.Refusal.{IsAskCause};
ghost use Rattle.pad_client.specs.declared.hear_refused.HearRefused.TheVariants.{Full};
ghost use Rattle.pad_client.specs.declared.heard.Heard.TheVariants as heard;
ghost use Rattle.pad_client.specs.Content.{MeetsFull, HearsMessage, no_moves};
ghost use Rattle.pad_client.specs.Repair.{BeginsRepair, HearsRepaired, sent_before, while_asked};
ghost use Rattle.pad_client.specs.State.{ClientState};
ghost use Rattle.pad_client.specs.Sync.{own_messages};
ghost use Rattle.pad_client.specs.View.{StandsAs, StandsStill};

use crate::client::Client;
use crate::client::content::use_message;
use crate::client::make::copy_of;
use crate::hear_refused::HearRefused;
use crate::heard::Heard;
use crate::repair::Repair;
use client_copy::laws::noted_stands;
use client_outbox::Own;
use client_requests::ClientRefused;
use netflux_codec::Since;
use pad_chain::{Moved, Moves};
use pad_edge::Wire;
use pad_message::Message;
use pad_patch::{Steps, UnitStore};
use pad_text::Name;
use std::alloc::{AllocError, Global};
use std::sync::ledger::Ledger;

/// A repair that has received these own messages, in order.
fn begun<S: UnitStore, L: Ledger>(
    alloc: Global,
    owns: &[Own],
    steps: &mut Steps<L>,
) -> Result<Repair<S>, AllocError>
    ensures stands { IfOk result (λ repair. NamesDiffer (own_messages owns.now) → (choice : Choice) × StandsFor repair first_base (sent_before owns.now) choice) }
    ensures whole { IfOk result (λ repair. repair.whole ≡ true) }
{
    let mut repair = Repair::new(alloc)?;
    for own in owns {
        receive_own(alloc, &mut repair, own, steps)?;
    }
    Ok(repair)
}

/// The repair receives an own message. There is always room: the outbox is shorter than the names that may be known.
fn receive_own<S: UnitStore, L: Ledger>(
    alloc: Global,
    repair: &mut Repair<S>,
    own: &Own,
    steps: &mut Steps<L>,
) -> Result<(), AllocError>
    ensures stands { OnOk result ((received : List Message) (choice : Choice) → NamesDiffer (own.now.message ∷ received) → StandsFor repair.old first_base received choice
        → (next : Choice) × StandsFor repair.new first_base (own.now.message ∷ received) next) }
    ensures whole { OnOk result (repair.new.whole ≡ true) }
{
    let message = copy_of(alloc, own.message())?;
    match repair.receive(alloc, own.name(), message, steps) {
        Ok(()) => Ok(()),
        Err(_) => Err(AllocError),
    }
}

/// Nothing moved.
fn nothing_moved(alloc: Global) -> Moved
    ensures { result ≡ no_moves }
{
    Moved {
        reverted: Moves::new(Vec::new(alloc)),
        applied: Moves::new(Vec::new(alloc)),
    }
}

impl<S: UnitStore> Client<S> {
    /// Begins a repair: the text that asks the keeper for the full history of the channel. What is heard from now on is received by a
    /// chain of its own, which never truncates, as are the messages of the outbox in this call. At the end of that history it takes
    /// the place of the client's chain. The first cause that holds is told, as of `ask`, and nothing is changed then.
    pub fn repair<L: Ledger>(
        &mut self,
        alloc: Global,
        steps: &mut Steps<L>,
    ) -> Result<Wire, ClientRefused>
        requires { self.old.requests.last < 4294967000 }
        ensures begins { IfOk result (λ wire. (client : ClientState) → StandsAs self.old client → NoClash (own_messages self.old.requests.outbox ++ client.copy.pad.all)
            → (after : ClientState) × BeginsRepair client wire after × StandsAs self.new after) }
        ensures cause { IfErr result (IsAskCause self.old.requests) }
        ensures unchanged { OnErr result (self.new ≡ self.old) }
        ensures last { self.new.requests.last ≤ self.old.requests.last + 1 }
        ensures strokes { self.new.copy.strokes ≡ self.old.copy.strokes }
    {
        noted_stands();
        let wire = self.requests.question(alloc, Since::All)?;
        let repair = begun(alloc, self.requests.outbox().as_slice(), steps)?;
        self.repair = Some(repair);
        self.requests.begin_repair();
        Ok(wire)
    }

    /// The repair that runs, which was taken out of the client, receives the message of this name, and is put back. The client's chain
    /// receives nothing.
    pub(crate) fn note<L: Ledger>(
        &mut self,
        alloc: Global,
        repair: Repair<S>,
        name: Name,
        message: Message,
        entry: bool,
        steps: &mut Steps<L>,
    ) -> Result<Heard, HearRefused>
        requires named { name ≡ name_of message }
        requires interval { HasInterval message.kind }
        ensures hears { IfOk result (λ answer. (client : ClientState) → StandsAs (record self.old { repair = Some repair }) client → NoClash (message ∷ client.copy.pad.all)
            → (after : ClientState) × HearsMessage client entry message answer after × StandsAs self.new after) }
        ensures full { IfErr result (λ refused. refused ≡ Full → (client : ClientState) → StandsAs (record self.old { repair = Some repair }) client → MeetsFull client message) }
        ensures still { IfErr result (λ refused. refused ≡ Full → StandsStill (record self.old { repair = Some repair }) self.new) }
        ensures last { self.new.requests.last ≡ self.old.requests.last }
        ensures strokes { self.new.copy.strokes ≡ self.old.copy.strokes }
    {
        noted_stands();
        let mut repair = repair;
        let received = repair.receive(alloc, name, message, steps);
        self.repair = Some(repair);
        received?;
        use_message(&mut self.requests, &name, entry);
        Ok(Heard::Content(nothing_moved(alloc)))
    }

    /// The history of the repair that ran, which was taken out of the client, has ended: what it received takes the place of the
    /// client's chain.
    pub(crate) fn end_repair<L: Ledger>(
        &mut self,
        alloc: Global,
        repair: Repair<S>,
        steps: &mut Steps<L>,
    ) -> Result<Heard, HearRefused>
        requires none { self.old.repair ≡ None }
        ensures ends { IfOk result (λ answer. (client : ClientState) → StandsAs (record self.old { repair = Some repair }) client → NoClash client.copy.pad.all
            → (received : List Message) × (found : Bool) × (after : ClientState) × (client.repair ≡ Some received) × HearsRepaired client received found after
            × (answer ≡ heard.Repaired found) × StandsAs self.new after) }
        ensures memory { IfErr result (λ refused. refused ≢ Full) }
        ensures last { self.new.requests.last ≡ self.old.requests.last }
        ensures strokes { self.new.copy.strokes ≡ self.old.copy.strokes }
    {
        let found = self.copy.end_repair(alloc, repair.into_chain(), steps)?;
        self.requests.end();
        Ok(Heard::Repaired(found))
    }

    /// The answer to a reply that may have given a repair up: what that received is dropped then.
    pub(crate) fn told(&mut self, answer: Heard) -> Heard
        ensures is { result ≡ answer }
        ensures drops { self.new ≡ record self.old { repair = while_asked self.old.requests.asked self.old.repair } }
    {
        if !self.requests.repairs() {
            self.repair = None;
        }
        answer
    }
}
