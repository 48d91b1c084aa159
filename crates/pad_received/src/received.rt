ghost use Rattle.std.specs.Prelude.{◌≡◌, ◌+◌, ◌≤◌, ◌<◌, ◌-◌, ◌^◌, List, [], Option, Some, None, length, reverse, IsOk, IfOk, IfErr, OnOk, string_bytes};
ghost use Rattle.pad_text.specs.Hash.{document_hash};
ghost use Rattle.pad_list.specs.Number.{IsNumberOf};
ghost use Rattle.pad_message.specs.Content.{most_operations};
ghost use Rattle.pad_message.specs.Kind.{HasInterval};
ghost use Rattle.pad_message.specs.declared.message.Message.{Message};
ghost use Rattle.pad_model.specs.declared.base.Base.{Base};
ghost use Rattle.pad_model.specs.Base.{first_base};
ghost use Rattle.pad_model.specs.Choice.{Choice};
ghost use Rattle.pad_model.specs.Count.{IsKnown};
ghost use Rattle.pad_model.specs.Path.{NamesDiffer};
ghost use Rattle.pad_model.specs.Report.{IsReport};
ghost use Rattle.pad_chain.specs.Knows.{Knows};
ghost use Rattle.pad_chain.specs.Tie.{StandsFor};
ghost use Rattle.pad_received.specs.Contents.{ReadsAs, HasFewNames, most_names};
ghost use Rattle.pad_received.specs.Inside.Telling.{Tells};
ghost use Rattle.pad_received.specs.Progress.{Progress, IsAt, progress_after, IsRefusedAtOnce};
ghost use Rattle.pad_received.specs.Refusal.{IsMessageRefusal, IsLineRefusal};
ghost use Rattle.pad_received.specs.Report.{IsSummary};

use crate::read_line::read_line;
use pad_chain::{Chain, ReceiveRefused};
use pad_message::Message;
use pad_patch::{Steps, UnitStore};
use pad_report::Report;
use pad_rope::Rope;
use pad_text::Text;
use std::alloc::{AllocError, Global};
use std::sync::ledger::Ledger;

/// What was received so far: the chain of the messages, and how many contents spelled none. Contracts see both.
#[derive(Drop)]
pub struct Received {
    chain: Chain<Rope>,
    unreadable: u64,
}

/// The whole text of a store.
fn whole_text<S: UnitStore>(alloc: Global, store: &S) -> Result<Text, AllocError>
    ensures { IfOk result (λ text. text ≡ S.units store.now) }
{
    store.read(alloc, 0, store.length())
}

impl Received {
    /// Nothing was received yet.
    pub fn new(alloc: Global) -> Result<Received, AllocError>
        ensures { IfOk result (λ received. IsAt received (record { messages = []; unreadable = 0 })) }
    {
        let chain = Chain::new(alloc)?;
        Ok(Received {
            chain,
            unreadable: 0,
        })
    }

    /// The report of what was received.
    pub fn report(&self, alloc: Global) -> Result<String, AllocError>
        ensures report { IfOk result (λ report. (progress : Progress) → IsAt self.now progress → NamesDiffer progress.messages
            → IsReport first_base progress.messages progress.unreadable (string_bytes report)) }
        ensures few { OnOk result ((progress : Progress) → IsAt self.now progress → HasFewNames progress.messages) }
    {
        let text = whole_text(alloc, self.chain.text())?;
        self.told().lines(alloc, &text)
    }

    /// The report of what was received, without the line of the text.
    pub fn summary(&self, alloc: Global) -> Result<String, AllocError>
        ensures { IfOk result (λ summary. (progress : Progress) → IsAt self.now progress → NamesDiffer progress.messages
            → IsSummary first_base progress.messages progress.unreadable (string_bytes summary)) }
    {
        let text = whole_text(alloc, self.chain.text())?;
        self.told().summary(alloc, &text)
    }

    /// What a report tells but for the text.
    fn told(&self) -> Report
        ensures hash { result.hash ≡ document_hash self.now.chain.branch.branch.units }
        ensures few { result.known ≤ most_names }
        ensures known { (base : Base) (received : List Message) → Knows self.now.chain base received → IsNumberOf (IsKnown base received) result.known }
        ensures tells { (progress : Progress) (choice : Choice) → IsAt self.now progress → StandsFor self.now.chain first_base (reverse progress.messages) choice → Tells progress choice result }
    {
        let best_end = self.chain.best();
        let root_end = self.chain.root();
        Report {
            best: best_end.name,
            height: best_end.height,
            hash: self.chain.hash(),
            known: self.chain.known(),
            waiting: self.chain.waiting(),
            unreadable: self.unreadable,
            root: root_end.name,
            root_height: root_end.height,
            kept: self.chain.kept(),
            overtaken: self.chain.overtaken(),
        }
    }

    /// Receives one more content, which is a line.
    pub fn receive_line<L: Ledger>(
        &mut self,
        alloc: Global,
        line: &[u8],
        steps: &mut Steps<L>,
    ) -> Result<(), ReceiveRefused>
        requires { self.old.unreadable < 2 ^ 64 - 1 }
        ensures received { OnOk result ((outcome : Option Message) × ReadsAs line.now outcome
            × ((progress : Progress) → IsAt self.old progress → IsAt self.new (progress_after outcome progress))) }
        ensures refused { IfErr result (λ refused. (progress : Progress) → IsAt self.old progress → IsLineRefusal line.now progress.messages refused) }
        ensures at_once { IsRefusedAtOnce line.now → IsOk result }
        ensures others { self.new.unreadable ≤ self.old.unreadable + 1 }
    {
        match read_line(alloc, line)? {
            Some(message) => self.receive(alloc, message, steps),
            None => {
                self.unreadable += 1;
                Ok(())
            }
        }
    }

    /// Receives a message, which a line reads as.
    fn receive<L: Ledger>(
        &mut self,
        alloc: Global,
        message: Message,
        steps: &mut Steps<L>,
    ) -> Result<(), ReceiveRefused>
        requires few { length message.patch.ops ≤ most_operations }
        requires interval { HasInterval message.kind }
        ensures received { OnOk result ((progress : Progress) → IsAt self.old progress → IsAt self.new (progress_after (Some message) progress)) }
        ensures refused { IfErr result (λ refused. (progress : Progress) → IsAt self.old progress → IsMessageRefusal message progress.messages refused) }
        ensures others { self.new.unreadable ≡ self.old.unreadable }
    {
        self.chain.receive_without_moves(alloc, message, steps)
    }
}
