//! The lines that make a call of the client.
ghost use Rattle.std.specs.Prelude.{◌≡◌, ◌≢◌, ◌≤◌, ◌<◌, ◌+◌, ◌^◌, ◌-◌, IfOk, IfErr, OnOk};
ghost use Rattle.pad_script.specs.declared.act.Act.TheVariants as act;
ghost use Rattle.pad_conversation.specs.declared.refused.SpeakerRefused.TheVariants as speaker;
ghost use Rattle.pad_script.specs.declared.requests.TheConstants.{MOST_EACH, MOST_REQUESTS};
ghost use Rattle.pad_client.specs.State.{ClientState};
ghost use Rattle.pad_client.specs.View.{StandsAs};
ghost use Rattle.client_script.specs.State.{Scripted};
ghost use Rattle.client_script.specs.Script.{DoesLine, MayDoLine, OverfillsBy};
ghost use Rattle.client_script.specs.View.{StandsFor};

use crate::hearing::Hearing;
use crate::saying::{refuses, refuses_call, says_nothing, sends, sends_one};
use crate::scripted::ScriptedClient;
use crate::words::{edit_word, sync_word};
use netflux_codec::{Channel, Since};
use pad_client::SyncRefused;
use pad_conversation::{Said, SpeakerRefused};
use pad_patch::{Operation, UnitStore};
use std::alloc::{AllocError, Global};
use std::sync::ledger::Ledger;

impl<S: UnitStore, L: Ledger> ScriptedClient<S, L> {
    /// `join CHANNEL`
    pub(crate) fn join(
        &mut self,
        alloc: Global,
        line: u64,
        channel: Channel,
    ) -> Result<Said, AllocError>
        requires number { self.old.client.requests.last < MOST_REQUESTS }
        requires quiet { self.old.hearing ≡ Hearing.Nothing }
        ensures does { IfOk result (λ said. (client : ClientState) → StandsAs self.old.client client → MayDoLine client (act.Join channel)
            → (after : Scripted) × DoesLine client line (act.Join channel) said.texts said.lines after × StandsFor self.new.client self.new.hearing after) }
        ensures last { OnOk result (self.new.client.requests.last ≤ self.old.client.requests.last + 1) }
        ensures strokes { OnOk result (self.new.client.copy.strokes ≡ self.old.client.copy.strokes) }
    {
        match self.client.join(alloc, channel) {
            Ok(text) => {
                self.hearing = Hearing::Join(self.client.requests());
                sends_one(alloc, text)
            }
            Err(refused) => refuses_call(alloc, line, refused),
        }
    }

    /// `leave`
    pub(crate) fn leave(&mut self, alloc: Global, line: u64) -> Result<Said, AllocError>
        requires number { self.old.client.requests.last < MOST_REQUESTS }
        requires quiet { self.old.hearing ≡ Hearing.Nothing }
        ensures does { IfOk result (λ said. (client : ClientState) → StandsAs self.old.client client → MayDoLine client (act.Leave)
            → (after : Scripted) × DoesLine client line (act.Leave) said.texts said.lines after × StandsFor self.new.client self.new.hearing after) }
        ensures last { OnOk result (self.new.client.requests.last ≤ self.old.client.requests.last + 1) }
        ensures strokes { OnOk result (self.new.client.copy.strokes ≡ self.old.client.copy.strokes) }
    {
        match self.client.leave(alloc) {
            Ok(text) => {
                self.hearing = Hearing::Leave(self.client.requests());
                sends_one(alloc, text)
            }
            Err(refused) => refuses_call(alloc, line, refused),
        }
    }

    /// `history`, from a stated entry on
    pub(crate) fn history(
        &mut self,
        alloc: Global,
        line: u64,
        from: Since,
    ) -> Result<Said, AllocError>
        requires number { self.old.client.requests.last < MOST_REQUESTS }
        requires quiet { self.old.hearing ≡ Hearing.Nothing }
        ensures does { IfOk result (λ said. (client : ClientState) → StandsAs self.old.client client → MayDoLine client (act.History from)
            → (after : Scripted) × DoesLine client line (act.History from) said.texts said.lines after × StandsFor self.new.client self.new.hearing after) }
        ensures last { OnOk result (self.new.client.requests.last ≤ self.old.client.requests.last + 1) }
        ensures strokes { OnOk result (self.new.client.copy.strokes ≡ self.old.client.copy.strokes) }
    {
        match self.client.ask(alloc, from) {
            Ok(text) => {
                self.hearing = Hearing::History(self.client.requests());
                sends_one(alloc, text)
            }
            Err(refused) => refuses_call(alloc, line, refused),
        }
    }

    /// `repair`
    pub(crate) fn repair(&mut self, alloc: Global, line: u64) -> Result<Said, AllocError>
        requires number { self.old.client.requests.last < MOST_REQUESTS }
        requires quiet { self.old.hearing ≡ Hearing.Nothing }
        ensures does { IfOk result (λ said. (client : ClientState) → StandsAs self.old.client client → MayDoLine client (act.Repair)
            → (after : Scripted) × DoesLine client line (act.Repair) said.texts said.lines after × StandsFor self.new.client self.new.hearing after) }
        ensures last { OnOk result (self.new.client.requests.last ≤ self.old.client.requests.last + 1) }
        ensures strokes { OnOk result (self.new.client.copy.strokes ≡ self.old.client.copy.strokes) }
    {
        match self.client.repair(alloc, &mut self.steps) {
            Ok(text) => {
                self.hearing = Hearing::Repair(self.client.requests());
                sends_one(alloc, text)
            }
            Err(refused) => refuses_call(alloc, line, refused),
        }
    }

    /// `resend`
    pub(crate) fn resend(&mut self, alloc: Global, line: u64) -> Result<Said, AllocError>
        requires number { self.old.client.requests.last < MOST_REQUESTS }
        requires quiet { self.old.hearing ≡ Hearing.Nothing }
        ensures does { IfOk result (λ said. (client : ClientState) → StandsAs self.old.client client → MayDoLine client (act.Resend)
            → (after : Scripted) × DoesLine client line (act.Resend) said.texts said.lines after × StandsFor self.new.client self.new.hearing after) }
        ensures last { OnOk result (self.new.client.requests.last ≤ self.old.client.requests.last + MOST_EACH) }
        ensures strokes { OnOk result (self.new.client.copy.strokes ≡ self.old.client.copy.strokes) }
    {
        match self.client.resend(alloc) {
            Ok(texts) => Ok(sends(alloc, texts)),
            Err(refused) => refuses_call(alloc, line, refused),
        }
    }

    /// `sync`
    pub(crate) fn sync(&mut self, alloc: Global, line: u64) -> Result<Said, SpeakerRefused>
        requires number { self.old.client.requests.last < MOST_REQUESTS }
        requires quiet { self.old.hearing ≡ Hearing.Nothing }
        ensures does { IfOk result (λ said. (client : ClientState) → StandsAs self.old.client client → MayDoLine client (act.Sync)
            → (after : Scripted) × DoesLine client line (act.Sync) said.texts said.lines after × StandsFor self.new.client self.new.hearing after) }
        ensures full { IfErr result (λ refused. refused ≡ speaker.Full → (client : ClientState) → StandsAs self.old.client client → OverfillsBy client act.Sync) }
        ensures last { OnOk result (self.new.client.requests.last ≤ self.old.client.requests.last + 2) }
        ensures strokes { OnOk result (self.new.client.copy.strokes ≡ self.old.client.copy.strokes) }
    {
        match self.client.sync(alloc, &mut self.steps) {
            Ok(texts) => Ok(sends(alloc, texts)),
            Err(SyncRefused::Full) => Err(SpeakerRefused::Full),
            Err(refused) => match sync_word(refused) {
                Some(word) => Ok(refuses(alloc, line, word)?),
                None => Err(SpeakerRefused::NoMemory),
            },
        }
    }

    /// `edit OFFSET REMOVE STRING`
    pub(crate) fn edit(
        &mut self,
        alloc: Global,
        line: u64,
        op: &Operation,
    ) -> Result<Said, AllocError>
        requires number { self.old.client.copy.strokes < 2 ^ 64 - 1 }
        requires quiet { self.old.hearing ≡ Hearing.Nothing }
        ensures does { IfOk result (λ said. (client : ClientState) → StandsAs self.old.client client → MayDoLine client (act.Edit op.now)
            → (after : Scripted) × DoesLine client line (act.Edit op.now) said.texts said.lines after × StandsFor self.new.client self.new.hearing after) }
        ensures last { OnOk result (self.new.client.requests.last ≡ self.old.client.requests.last) }
        ensures strokes { OnOk result (self.new.client.copy.strokes ≤ self.old.client.copy.strokes + 1) }
    {
        let _committed = self.client.text();
        let op = op.copy(alloc)?;
        match self.client.edit(alloc, op) {
            Ok(()) => Ok(says_nothing(alloc)),
            Err(refused) => match edit_word(refused) {
                Some(word) => refuses(alloc, line, word),
                None => Err(AllocError),
            },
        }
    }
}
