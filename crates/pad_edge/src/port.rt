ghost use Rattle.std.specs.Prelude.{◌≡◌, ℕ, ◌+◌, ◌≤◌, List, [], ◌∷◌, ◌++◌, IsErrOf, OnOk};
ghost use Rattle.pad_edge.specs.Count.{CountsIf};
ghost use Rattle.pad_edge.specs.Link.{is_failed, added};
ghost use Rattle.pad_edge.specs.Port.{is_port_end, events_after, failed_after, OpensOnce};
ghost use Rattle.pad_edge.specs.declared.link_refused.LinkRefused.TheVariants as refused;
ghost use Rattle.pad_edge.specs.declared.port_event.PortEvent.{PortEvent};
ghost use Rattle.pad_edge.specs.declared.sent.Sent.{Sent};
ghost use Rattle.pad_edge.specs.declared.sent.Sent.TheVariants as out;

use crate::link_refused::LinkRefused;
use crate::port_event::PortEvent;

/// An address at which clients connect, and their connections.
pub trait Port {
    /// Whether it knows its texts. If it does not, contracts know its counts alone.
    ghost tells: { Type 0 };

    /// How many calls of `listen` and `next` failed so far. At 2^64 - 1 it stays.
    ghost faults: { Self → ℕ };

    /// How many sends failed so far. At 2^64 - 1 it stays.
    ghost drops: { Self → ℕ };

    /// How often it ended so far. At 2^64 - 1 it stays.
    ghost ends: { Self → ℕ };

    /// The events that `next` gave so far, `Idle` and `Ended` among them.
    ghost events: { Self → List PortEvent };

    /// The texts that were sent and the connections that were hung up so far, in order.
    ghost sent: { Self → List Sent };

    /// The connection of each send that failed so far, in order.
    ghost failed: { Self → List ℕ };

    /// For how many hang-ups room was made.
    ghost spare: { Self → ℕ };

    /// Begins to listen at an address. `Failed` comes only if the count of faults rose in this call; each other answer leaves that
    /// count as it was.
    fn listen(&mut self, address: &str) -> Result<(), LinkRefused>
        ensures cause { CountsIf (is_failed result) (faults self.old) (faults self.new) }
        ensures counts { (drops self.new ≡ drops self.old) × (ends self.new ≡ ends self.old) }
        ensures lists { tells → (events self.new ≡ events self.old) × (sent self.new ≡ sent self.old) × (failed self.new ≡ failed self.old) };

    /// Waits for the next event, for a while. `Failed` comes only if the count of faults rose in this call, and `Ended` only if
    /// the count of ends did; each other answer leaves them as they were. A number is opened once in a port's life.
    fn next(&mut self) -> Result<PortEvent, LinkRefused>
        ensures cause { CountsIf (is_failed result) (faults self.old) (faults self.new) }
        ensures ends { CountsIf (is_port_end result) (ends self.old) (ends self.new) }
        ensures drops { drops self.new ≡ drops self.old }
        ensures events { tells → events self.new ≡ events_after (events self.old) result }
        ensures once { tells → OpensOnce (events self.new) }
        ensures lists { tells → (sent self.new ≡ sent self.old) × (failed self.new ≡ failed self.old) };

    /// Sends a text over a connection. `Failed` comes only if the count of drops rose in this call; each other answer leaves
    /// that count as it was. `Ok` and `Failed` leave room for a hang-up.
    fn send(&mut self, connection: u64, text: &str) -> Result<(), LinkRefused>
        ensures cause { CountsIf (is_failed result) (drops self.old) (drops self.new) }
        ensures counts { (faults self.new ≡ faults self.old) × (ends self.new ≡ ends self.old) }
        ensures sent { tells → sent self.new ≡ added (sent self.old) (out.Text connection text.now) result }
        ensures failed { tells → failed self.new ≡ failed_after (failed self.old) connection result }
        ensures events { tells → events self.new ≡ events self.old }
        ensures spare { OnOk result (1 ≤ spare self.new) }
        ensures spare_failed { IsErrOf result refused.Failed → 1 ≤ spare self.new };

    /// Hangs up. It takes no memory and cannot fail. What was sent before should still arrive, if the other end reads; no contract
    /// speaks of that, nor of what still comes over this connection.
    fn hang_up(&mut self, connection: u64)
        requires { 1 ≤ spare self.old }
        ensures counts { (faults self.new ≡ faults self.old) × (drops self.new ≡ drops self.old) × (ends self.new ≡ ends self.old) }
        ensures sent { tells → sent self.new ≡ sent self.old ++ out.HungUp connection ∷ [] }
        ensures lists { tells → (events self.new ≡ events self.old) × (failed self.new ≡ failed self.old) }
        ensures spare { spare self.old ≤ spare self.new + 1 };
}
