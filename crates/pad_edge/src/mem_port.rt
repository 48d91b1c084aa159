ghost use Rattle.std.specs.Prelude.{◌≡◌, ℕ, ◌+◌, ◌-◌, ◌^◌, ◌≤◌, ◌↔◌, List, [], ◌∷◌, ◌++◌, length, IfOk, IfErr, IsErr, IsErrOf, OnOk, Contains, is_err, false, true, vec_capacity, vec_len};
ghost use Rattle.pad_edge.specs.Calls.{no_calls, one_more};
ghost use Rattle.pad_edge.specs.Count.{CountsIf, counted};
ghost use Rattle.pad_edge.specs.Link.{is_failed, added};
ghost use Rattle.pad_edge.specs.MemPort.{next_event, events_left};
ghost use Rattle.pad_edge.specs.Port.{is_port_end, events_after, failed_after, OpensOnce};
ghost use Rattle.pad_edge.specs.declared.link_refused.LinkRefused.TheVariants as refused;
ghost use Rattle.pad_edge.specs.declared.sent.Sent.TheVariants as out;

use crate::calls::Calls;
use crate::link_refused::LinkRefused;
use crate::port::Port;
use crate::port_event::PortEvent;
use crate::sent::Sent;
use crate::wire::Wire;
use std::marker::Model;

/// A port in memory, some of whose calls fail. It gives the events of a list, and then `Ended` again and again.
#[derive(Debug, Drop)]
pub struct MemPort {
    events: Vec<PortEvent>,
    given: usize,
    sent: Vec<Sent>,
    failed: Vec<u64>,
    ends: u64,
    drops: u64,
    calls: Calls,
}

impl Model for MemPort {
    ghost use Rattle.std.specs.Prelude.{◌≤◌, ◌-◌, take, drop, vec_len, vec_capacity};
    ghost use Rattle.pad_edge.specs.MemPort.{PortSoFar};
    ghost use Rattle.pad_edge.specs.Port.{OpensOnce};

    ghost Value = { PortSoFar };

    ghost view = { λ port. record {
      events = take port.given port.events.items;
      coming = drop port.given port.events.items;
      sent = port.sent.items;
      failed = port.failed.items;
      spare = vec_capacity port.sent - vec_len port.sent;
      ends = port.ends;
      drops = port.drops;
      calls = port.calls;
    } };

    ghost invariant = { λ port. (port.given ≤ vec_len port.events) × OpensOnce port.events.items };
}

impl MemPort {
    /// A port that gives these events, which open no number twice. The calls whose numbers are listed in `failing`, from 0,
    /// fail; `hang_up` has no number. It only moves what it is given.
    pub fn new(events: Vec<PortEvent>, failing: Vec<u64>) -> MemPort
        requires { OpensOnce events.items }
        ensures { result ≡ record { events = []; coming = events.items; sent = []; failed = []; spare = 0; ends = 0; drops = 0; calls = no_calls failing.items } }
    {
        let alloc = *events.allocator();
        MemPort {
            events,
            given: 0,
            sent: Vec::new(alloc),
            failed: Vec::new(alloc),
            ends: 0,
            drops: 0,
            calls: Calls::new(failing),
        }
    }

    /// Lends the texts that were sent and the connections that were hung up so far.
    pub fn sent(&self) -> &[Sent]
        ensures { result.now ≡ self.now.sent }
    {
        self.sent.as_slice()
    }

    /// Lends the connections whose sends failed so far.
    pub fn failed(&self) -> &[u64]
        ensures { result.now ≡ self.now.failed }
    {
        self.failed.as_slice()
    }
}

impl Port for MemPort {
    ghost tells = { Unit {0} };

    ghost faults = { λ port. port.calls.faults };

    ghost drops = { λ port. port.drops };

    ghost ends = { λ port. port.ends };

    ghost events = { λ port. port.events };

    ghost sent = { λ port. port.sent };

    ghost failed = { λ port. port.failed };

    ghost spare = { λ port. port.spare };

    fn listen(&mut self, _address: &str) -> Result<(), LinkRefused>
        ensures cause { CountsIf (is_failed result) self.old.calls.faults self.new.calls.faults }
        ensures counts { (self.new.drops ≡ self.old.drops) × (self.new.ends ≡ self.old.ends) }
        ensures lists { Unit {0} → (self.new.events ≡ self.old.events) × (self.new.sent ≡ self.old.sent) × (self.new.failed ≡ self.old.failed) }

        // It fails exactly if its number is listed.
        ensures fails { IsErr result ↔ Contains self.old.calls.failing self.old.calls.made }
        ensures starved { IsErrOf result refused.NoMemory → ⊥ }
        ensures new { self.new ≡ record self.old { calls = one_more self.old.calls (is_err result) } }
    {
        if self.calls.fails_next() {
            let _ = self.calls.count_failed();
            return Err(LinkRefused::Failed);
        }
        self.calls.count_done();
        Ok(())
    }

    #[tactic(auto, using(crate::proofs::Openings::once_front, crate::proofs::Openings::once_pushed))]
    fn next(&mut self) -> Result<PortEvent, LinkRefused>
        ensures cause { CountsIf (is_failed result) self.old.calls.faults self.new.calls.faults }
        ensures ends { CountsIf (is_port_end result) self.old.ends self.new.ends }
        ensures drops { self.new.drops ≡ self.old.drops }
        ensures events { Unit {0} → self.new.events ≡ events_after self.old.events result }
        ensures once { Unit {0} → OpensOnce self.new.events }
        ensures lists { Unit {0} → (self.new.sent ≡ self.old.sent) × (self.new.failed ≡ self.old.failed) }

        // It fails exactly if its number is listed, and else gives the next event of its list.
        ensures fails { IsErrOf result refused.Failed ↔ Contains self.old.calls.failing self.old.calls.made }
        ensures gives { IfOk result (λ event. event ≡ next_event self.old.coming) }
        ensures left { self.new.coming ≡ events_left self.old.coming result }
        ensures calls { self.new.calls ≡ one_more self.old.calls (is_failed result) }
        ensures spare { self.new.spare ≡ self.old.spare }
    {
        if self.calls.fails_next() {
            let _ = self.calls.count_failed();
            return Err(LinkRefused::Failed);
        }
        self.calls.count_done();
        let event = if self.given < self.events.len() {
            self.events[self.given].copy()?
        } else {
            self.events.push(PortEvent::Ended)?;
            PortEvent::Ended
        };
        self.given += 1;
        if event.is_end() {
            self.ends = self.ends.saturating_add(1);
        }
        Ok(event)
    }

    fn send(&mut self, connection: u64, text: &str) -> Result<(), LinkRefused>
        ensures cause { CountsIf (is_failed result) self.old.drops self.new.drops }
        ensures counts { (self.new.calls.faults ≡ self.old.calls.faults) × (self.new.ends ≡ self.old.ends) }
        ensures sent { Unit {0} → self.new.sent ≡ added self.old.sent (out.Text connection text.now) result }
        ensures failed { Unit {0} → self.new.failed ≡ failed_after self.old.failed connection result }
        ensures events { Unit {0} → self.new.events ≡ self.old.events }
        ensures spare { OnOk result (1 ≤ self.new.spare) }
        ensures spare_failed { IsErrOf result refused.Failed → 1 ≤ self.new.spare }

        // It fails only if its number is listed, and then it is not answered Ok.
        ensures fails { IsErrOf result refused.Failed → Contains self.old.calls.failing self.old.calls.made }
        ensures works { OnOk result (Contains self.old.calls.failing self.old.calls.made → ⊥) }
        ensures left { self.new.coming ≡ self.old.coming }
        ensures calls { self.new.calls ≡ one_more self.old.calls false }
    {
        if self.calls.fails_next() {
            self.calls.count_done();
            self.sent.reserve(1)?;
            self.failed.push(connection)?;
            self.drops = self.drops.saturating_add(1);
            return Err(LinkRefused::Failed);
        }
        self.calls.count_done();
        let text = String::from_str(*self.sent.allocator(), text)?;
        self.sent.reserve(2)?;
        self.sent.push(Sent::Text(connection, Wire::new(text)))?;
        Ok(())
    }

    fn hang_up(&mut self, connection: u64)
        requires { 1 ≤ self.old.spare }
        ensures counts { (self.new.calls.faults ≡ self.old.calls.faults) × (self.new.drops ≡ self.old.drops) × (self.new.ends ≡ self.old.ends) }
        ensures sent { Unit {0} → self.new.sent ≡ self.old.sent ++ out.HungUp connection ∷ [] }
        ensures lists { Unit {0} → (self.new.events ≡ self.old.events) × (self.new.failed ≡ self.old.failed) }
        ensures spare { self.old.spare ≤ self.new.spare + 1 }
        ensures rest { (self.new.coming ≡ self.old.coming) × (self.new.calls ≡ self.old.calls) }
    {
        let _ = self.sent.push(Sent::HungUp(connection));
    }
}
