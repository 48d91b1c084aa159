//! The calls of a client for the lines of a script: each is done, or refused, which is printed.

ghost use Rattle.std.specs.Prelude.{◌≡◌, ◌⊎◌, ◌<◌, ◌^◌, ◌-◌, ◌++◌, ◌∷◌, [], ℕ, List, IfOk, IfErr, MatchResult, OnErr, OnOk};
ghost use Rattle.pad_message.specs.Kind.{IsInterval};
ghost use Rattle.client_copy.specs.View.{NoClash};
ghost use Rattle.pad_client.specs.Calls.{with_interval};
ghost use Rattle.pad_client.specs.Refusal.{IsSyncCause};
ghost use Rattle.pad_client.specs.Sync.{own_messages};
ghost use Rattle.pad_client.specs.declared.sync_refused.SyncRefused.TheVariants as sync;
ghost use Rattle.pad_seat.specs.Calls.{IsCause, IsToldEdit, IsToldSync, DoesJoin, DoesLeave, DoesHistory, DoesResend, DoesRepair, DoesSync, DoesEdit, GivesOut};
ghost use Rattle.pad_seat.specs.Lines.{refused_line, call_word, edit_word, sync_word};
ghost use Rattle.pad_seat.specs.State.{SeatState, StandsAs};
ghost use Rattle.pad_seat.specs.Texts.{sends};
ghost use Rattle.pad_seat.specs.declared.seat_refused.SeatRefused.TheVariants as seat_refused;

use crate::seat::Seat;
use crate::seat_refused::SeatRefused;
use crate::words::{call_word, edit_word, refused_line, sync_word};
use client_requests::ClientRefused;
use netflux_codec::{Channel, Since};
use pad_client::{EditRefused, SyncRefused};
use pad_edge::{Wire, Wires};
use pad_patch::{Operation, Steps, UnitStore};
use std::alloc::{AllocError, Global};
use std::sync::ledger::Ledger;

/// Nothing is printed.
fn nothing(alloc: Global) -> Wire
    ensures { result ≡ [] }
{
    Wire::new(String::new(alloc))
}

/// What is printed of a refused request.
fn told(alloc: Global, line: u64, refused: ClientRefused) -> Result<Wire, SeatRefused>
    ensures told { IfOk result (λ printed. IsCause refused × (printed ≡ refused_line line (call_word refused))) }
    ensures memory { IfErr result (λ why. why ≡ seat_refused.Full → ⊥) }
{
    match call_word(refused) {
        Some(word) => Ok(refused_line(alloc, line, word)?),
        None => Err(SeatRefused::NoMemory(AllocError)),
    }
}

/// What is printed of a refused edit.
fn told_edit(alloc: Global, line: u64, refused: EditRefused) -> Result<Wire, SeatRefused>
    ensures told { IfOk result (λ printed. IsToldEdit refused × (printed ≡ refused_line line (edit_word refused))) }
    ensures memory { IfErr result (λ why. why ≡ seat_refused.Full → ⊥) }
{
    match edit_word(refused) {
        Some(word) => Ok(refused_line(alloc, line, word)?),
        None => Err(SeatRefused::NoMemory(AllocError)),
    }
}

/// What is printed of a refused sync.
fn told_sync(alloc: Global, line: u64, refused: SyncRefused) -> Result<Wire, SeatRefused>
    ensures told { IfOk result (λ printed. IsToldSync refused × (printed ≡ refused_line line (sync_word refused))) }
    ensures full { IfErr result (λ why. why ≡ seat_refused.Full → refused ≡ sync.Full) }
{
    if let SyncRefused::Full = refused {
        return Err(SeatRefused::Full);
    }
    match sync_word(refused) {
        Some(word) => Ok(refused_line(alloc, line, word)?),
        None => Err(SeatRefused::NoMemory(AllocError)),
    }
}

impl<S: UnitStore> Seat<S> {
    /// A request that is one text was made or refused.
    fn sends_one(
        &mut self,
        alloc: Global,
        line: u64,
        made: Result<Wire, ClientRefused>,
    ) -> Result<Wire, SeatRefused>
        ensures answers { IfOk result (λ printed. MatchResult made (λ text. (printed ≡ []) × (self.new ≡ sends self.old (text ∷ [])))
            (λ refused. IsCause refused × (printed ≡ refused_line line (call_word refused)) × (self.new ≡ self.old))) }
        ensures memory { IfErr result (λ why. why ≡ seat_refused.Full → ⊥) }
    {
        match made {
            Ok(text) => {
                self.up.put(text)?;
                Ok(nothing(alloc))
            }
            Err(refused) => told(alloc, line, refused),
        }
    }

    /// Texts are sent.
    fn sends_all(&mut self, alloc: Global, texts: &Wires) -> Result<Wire, AllocError>
        ensures { IfOk result (λ printed. (printed ≡ []) × (self.new ≡ sends self.old texts.now)) }
    {
        self.up.put_all(texts)?;
        Ok(nothing(alloc))
    }

    /// Joins a channel.
    pub fn join(&mut self, alloc: Global, line: u64, channel: Channel) -> Result<Wire, SeatRefused>
        requires { self.old.client.requests.last < 4294967000 }
        ensures does { IfOk result (λ printed. (seat : SeatState) → StandsAs self.old seat → (after : SeatState) × DoesJoin line channel seat printed after × StandsAs self.new after) }
        ensures counts { OnOk result (GivesOut 1 0 self.old self.new) }
        ensures memory { IfErr result (λ why. why ≡ seat_refused.Full → ⊥) }
    {
        let made = self.client.join(alloc, channel);
        self.sends_one(alloc, line, made)
    }

    /// Leaves the channel.
    pub fn leave(&mut self, alloc: Global, line: u64) -> Result<Wire, SeatRefused>
        requires { self.old.client.requests.last < 4294967000 }
        ensures does { IfOk result (λ printed. (seat : SeatState) → StandsAs self.old seat → (after : SeatState) × DoesLeave line seat printed after × StandsAs self.new after) }
        ensures counts { OnOk result (GivesOut 1 0 self.old self.new) }
        ensures memory { IfErr result (λ why. why ≡ seat_refused.Full → ⊥) }
    {
        let made = self.client.leave(alloc);
        self.sends_one(alloc, line, made)
    }

    /// Asks for a history of the channel.
    pub fn ask(&mut self, alloc: Global, line: u64, from: Since) -> Result<Wire, SeatRefused>
        requires { self.old.client.requests.last < 4294967000 }
        ensures does { IfOk result (λ printed. (seat : SeatState) → StandsAs self.old seat → (after : SeatState) × DoesHistory line from seat printed after × StandsAs self.new after) }
        ensures counts { OnOk result (GivesOut 1 0 self.old self.new) }
        ensures memory { IfErr result (λ why. why ≡ seat_refused.Full → ⊥) }
    {
        let made = self.client.ask(alloc, from);
        self.sends_one(alloc, line, made)
    }

    /// Sends again what was not acknowledged.
    pub fn resend(&mut self, alloc: Global, line: u64) -> Result<Wire, SeatRefused>
        requires { self.old.client.requests.last < 4294967000 }
        ensures does { IfOk result (λ printed. (seat : SeatState) → StandsAs self.old seat → (after : SeatState) × DoesResend line seat printed after × StandsAs self.new after) }
        ensures counts { OnOk result (GivesOut 64 0 self.old self.new) }
        ensures memory { IfErr result (λ why. why ≡ seat_refused.Full → ⊥) }
    {
        let texts = match self.client.resend(alloc) {
            Ok(texts) => texts,
            Err(refused) => return told(alloc, line, refused),
        };
        let printed = self.sends_all(alloc, &texts)?;
        Ok(printed)
    }

    /// Begins a repair. What is said of it has the premise that no names clash among all messages that the client received and its own.
    pub fn repair<L: Ledger>(
        &mut self,
        alloc: Global,
        line: u64,
        steps: &mut Steps<L>,
    ) -> Result<Wire, SeatRefused>
        requires { self.old.client.requests.last < 4294967000 }
        ensures does { IfOk result (λ printed. (seat : SeatState) → StandsAs self.old seat → NoClash (own_messages self.old.client.requests.outbox ++ seat.client.copy.pad.all)
            → (after : SeatState) × DoesRepair line seat printed after × StandsAs self.new after) }
        ensures counts { OnOk result (GivesOut 1 0 self.old self.new) }
        ensures memory { IfErr result (λ why. why ≡ seat_refused.Full → ⊥) }
    {
        let made = self.client.repair(alloc, steps);
        self.sends_one(alloc, line, made)
    }

    /// Sends the unsent work. What is said of it has the premise that no names clash among all messages that the client received and
    /// its own. `Full` comes only where the client would know more names than it may, and then nothing is changed.
    pub fn sync<L: Ledger>(
        &mut self,
        alloc: Global,
        line: u64,
        steps: &mut Steps<L>,
    ) -> Result<Wire, SeatRefused>
        requires { self.old.client.requests.last < 4294967000 }
        ensures does { IfOk result (λ printed. (seat : SeatState) → StandsAs self.old seat → NoClash (own_messages self.new.client.requests.outbox ++ seat.client.copy.pad.all)
            → (after : SeatState) × DoesSync line seat printed after × StandsAs self.new after) }
        ensures counts { OnOk result (GivesOut 2 0 self.old self.new) }
        ensures full { IfErr result (λ why. why ≡ seat_refused.Full → (seat : SeatState) → StandsAs self.old seat → IsSyncCause seat.client sync.Full) }
        ensures still { IfErr result (λ why. why ≡ seat_refused.Full → self.new ≡ self.old) }
    {
        let texts = match self.client.sync(alloc, steps) {
            Ok(texts) => texts,
            Err(refused) => return told_sync(alloc, line, refused),
        };
        let printed = self.sends_all(alloc, &texts)?;
        Ok(printed)
    }

    /// Edits the shown text.
    pub fn edit(&mut self, alloc: Global, line: u64, op: Operation) -> Result<Wire, SeatRefused>
        requires { self.old.client.copy.strokes < 2 ^ 64 - 1 }
        ensures does { IfOk result (λ printed. (seat : SeatState) → StandsAs self.old seat → (after : SeatState) × DoesEdit line op seat printed after × StandsAs self.new after) }
        ensures counts { OnOk result (GivesOut 0 1 self.old self.new) }
        ensures memory { IfErr result (λ why. why ≡ seat_refused.Full → ⊥) }
    {
        let _units = self.client.text();
        match self.client.edit(alloc, op) {
            Ok(()) => {}
            Err(refused) => return told_edit(alloc, line, refused),
        }
        Ok(nothing(alloc))
    }

    /// Sets the interval that the client's next checkpoint has, in messages.
    pub fn set_interval(&mut self, interval: u16)
        requires { IsInterval interval }
        ensures { self.new ≡ record self.old { client = with_interval interval self.old.client } }
    {
        self.client.set_interval(interval);
    }
}
