ghost use Rattle.std.specs.Prelude.{◌≡◌, ℕ, ◌+◌, ◌-◌, ◌^◌, ◌≤◌, ◌⊎◌, ◌↔◌, List, [], ◌++◌, length, IfOk, IfErr, IsErr, IsErrOf, Contains, is_err};
ghost use Rattle.pad_edge.specs.Calls.{no_calls, one_more};
ghost use Rattle.pad_edge.specs.Count.{CountsIf};
ghost use Rattle.pad_edge.specs.Link.{is_failed, is_link_end, texts_in, added};
ghost use Rattle.pad_edge.specs.MemLink.{next_arrival};
ghost use Rattle.pad_edge.specs.declared.link_refused.LinkRefused.TheVariants as refused;

use crate::arrival::Arrival;
use crate::calls::Calls;
use crate::link::Link;
use crate::link_refused::LinkRefused;
use crate::wire::Wire;
use std::marker::Model;

/// A link in memory, some of whose calls fail. It gives the texts of a list, and then ends again and again.
#[derive(Debug, Drop)]
pub struct MemLink {
    texts: Vec<Wire>,
    given: usize,
    sent: Vec<Wire>,
    ends: u64,
    calls: Calls,
}

impl Model for MemLink {
    ghost use Rattle.std.specs.Prelude.{◌≤◌, take, drop, vec_len};
    ghost use Rattle.pad_edge.specs.MemLink.{LinkSoFar};

    ghost Value = { LinkSoFar };

    ghost view = { λ link. record {
      heard = take link.given link.texts.items;
      coming = drop link.given link.texts.items;
      sent = link.sent.items;
      ends = link.ends;
      calls = link.calls;
    } };

    ghost invariant = { λ link. link.given ≤ vec_len link.texts };
}

impl MemLink {
    /// A link that gives these texts. The calls whose numbers are listed in `failing`, from 0, fail. It only moves what it
    /// is given.
    pub fn new(texts: Vec<Wire>, failing: Vec<u64>) -> MemLink
        ensures { result ≡ record { heard = []; coming = texts.items; sent = []; ends = 0; calls = no_calls failing.items } }
    {
        let alloc = *texts.allocator();
        MemLink {
            texts,
            given: 0,
            sent: Vec::new(alloc),
            ends: 0,
            calls: Calls::new(failing),
        }
    }

    /// Lends the texts that were sent so far.
    pub fn sent(&self) -> &[Wire]
        ensures { result.now ≡ self.now.sent }
    {
        self.sent.as_slice()
    }
}

impl Link for MemLink {
    ghost tells = { Unit {0} };

    ghost faults = { λ link. link.calls.faults };

    ghost ends = { λ link. link.ends };

    ghost given = { λ link. length link.heard };

    ghost heard = { λ link. link.heard };

    ghost sent = { λ link. link.sent };

    fn dial(&mut self, _address: &str) -> Result<(), LinkRefused>
        ensures cause { CountsIf (is_failed result) self.old.calls.faults self.new.calls.faults }
        ensures counts { (self.new.ends ≡ self.old.ends) × (length self.new.heard ≡ length self.old.heard) }
        ensures lists { Unit {0} → (self.new.heard ≡ self.old.heard) × (self.new.sent ≡ self.old.sent) }

        // It fails exactly if its number is listed.
        ensures fails { IsErr result ↔ Contains self.old.calls.failing self.old.calls.made }
        ensures starved { IsErrOf result refused.NoMemory → ⊥ }
        ensures new { self.new ≡ record self.old { calls = one_more self.old.calls (is_err result) } }
    {
        if self.calls.fails_next() {
            let _ = self.calls.count_failed();
            return Err(LinkRefused::Failed);
        }
        self.calls.count_done();
        Ok(())
    }

    fn recv(&mut self) -> Result<Arrival, LinkRefused>
        ensures cause { CountsIf (is_failed result) self.old.calls.faults self.new.calls.faults }
        ensures ends { CountsIf (is_link_end result) self.old.ends self.new.ends }
        ensures given { length self.new.heard ≡ length self.old.heard + length (texts_in result) }
        ensures full { 2 ^ 64 - 1 ≤ length self.old.heard → IsErrOf result refused.Failed }
        ensures heard { Unit {0} → self.new.heard ≡ self.old.heard ++ texts_in result }
        ensures sent { Unit {0} → self.new.sent ≡ self.old.sent }

        // It fails exactly if its number is listed, or 2^64 - 1 texts were given. Else it gives the next text if there is one.
        ensures fails { IsErrOf result refused.Failed ↔ (Contains self.old.calls.failing self.old.calls.made ⊎ (2 ^ 64 - 1 ≤ length self.old.heard)) }
        ensures gives { IfOk result (λ arrival. arrival ≡ next_arrival self.old.coming) }
        ensures left { self.new.heard ++ self.new.coming ≡ self.old.heard ++ self.old.coming }
        ensures calls { self.new.calls ≡ one_more self.old.calls (is_failed result) }
    {
        if self.calls.fails_next() || self.given == usize::MAX {
            let _ = self.calls.count_failed();
            return Err(LinkRefused::Failed);
        }
        self.calls.count_done();
        match self.texts.as_slice().get(self.given) {
            None => {
                self.ends = self.ends.saturating_add(1);
                Ok(Arrival::Ended)
            }
            Some(text) => {
                let text = text.copy()?;
                self.given += 1;
                Ok(Arrival::Text(text))
            }
        }
    }

    fn send(&mut self, text: &str) -> Result<(), LinkRefused>
        ensures cause { CountsIf (is_failed result) self.old.calls.faults self.new.calls.faults }
        ensures counts { (self.new.ends ≡ self.old.ends) × (length self.new.heard ≡ length self.old.heard) }
        ensures sent { Unit {0} → self.new.sent ≡ added self.old.sent text.now result }
        ensures heard { Unit {0} → self.new.heard ≡ self.old.heard }

        // It fails exactly if its number is listed.
        ensures fails { IsErrOf result refused.Failed ↔ Contains self.old.calls.failing self.old.calls.made }
        ensures left { self.new.coming ≡ self.old.coming }
        ensures calls { self.new.calls ≡ one_more self.old.calls (is_failed result) }
    {
        if self.calls.fails_next() {
            let _ = self.calls.count_failed();
            return Err(LinkRefused::Failed);
        }
        self.calls.count_done();
        let text = String::from_str(*self.sent.allocator(), text)?;
        self.sent.push(Wire::new(text))?;
        Ok(())
    }
}
