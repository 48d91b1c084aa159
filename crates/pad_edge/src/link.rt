ghost use Rattle.std.specs.Prelude.{◌≡◌, ℕ, ◌+◌, ◌-◌, ◌^◌, ◌≤◌, List, ◌++◌, length, IsErrOf};
ghost use Rattle.pad_edge.specs.Count.{CountsIf};
ghost use Rattle.pad_edge.specs.Link.{is_failed, is_link_end, texts_in, added};
ghost use Rattle.pad_edge.specs.declared.link_refused.LinkRefused.TheVariants as refused;

use crate::arrival::Arrival;
use crate::link_refused::LinkRefused;

/// A connection to a server, over which texts come and go.
pub trait Link {
    /// Whether it knows its texts. If it does not, contracts know its counts alone.
    ghost tells: { Type 0 };

    /// How many calls failed so far. At 2^64 - 1 it stays.
    ghost faults: { Self → ℕ };

    /// How often it ended so far. At 2^64 - 1 it stays.
    ghost ends: { Self → ℕ };

    /// How many texts it gave so far.
    ghost given: { Self → ℕ };

    /// The texts that it gave so far.
    ghost heard: { Self → List (List ℕ) };

    /// The texts that were sent so far.
    ghost sent: { Self → List (List ℕ) };

    /// Connects to a server. `Failed` comes only if the count of faults rose in this call, here and in all other calls; each
    /// other answer leaves that count as it was.
    fn dial(&mut self, address: &str) -> Result<(), LinkRefused>
        ensures cause { CountsIf (is_failed result) (faults self.old) (faults self.new) }
        ensures counts { (ends self.new ≡ ends self.old) × (given self.new ≡ given self.old) }
        ensures lists { tells → (heard self.new ≡ heard self.old) × (sent self.new ≡ sent self.old) };

    /// Waits for the next text. It answers `Ended` only if the count of ends rose in this call. A link gives fewer than 2^64
    /// texts; past that it answers `Failed`.
    fn recv(&mut self) -> Result<Arrival, LinkRefused>
        ensures cause { CountsIf (is_failed result) (faults self.old) (faults self.new) }
        ensures ends { CountsIf (is_link_end result) (ends self.old) (ends self.new) }
        ensures given { given self.new ≡ given self.old + length (texts_in result) }
        ensures full { 2 ^ 64 - 1 ≤ given self.old → IsErrOf result refused.Failed }
        ensures heard { tells → heard self.new ≡ heard self.old ++ texts_in result }
        ensures sent { tells → sent self.new ≡ sent self.old };

    /// Sends a text.
    fn send(&mut self, text: &str) -> Result<(), LinkRefused>
        ensures cause { CountsIf (is_failed result) (faults self.old) (faults self.new) }
        ensures counts { (ends self.new ≡ ends self.old) × (given self.new ≡ given self.old) }
        ensures sent { tells → sent self.new ≡ added (sent self.old) text.now result }
        ensures heard { tells → heard self.new ≡ heard self.old };
}
