//! A text that the client hears.

ghost use Rattle.std.specs.Prelude.{◌≡◌, IfOk, IfErr, OnOk};
ghost use Rattle.pad_client.specs.Hear.{IsRefused};
ghost use Rattle.pad_client.specs.View.{DiffersAfter};
ghost use Rattle.pad_seat.specs.Calls.{HearsText, GivesOut};
ghost use Rattle.pad_seat.specs.State.{SeatState, StandsAs};
ghost use Rattle.pad_seat.specs.declared.seat_refused.SeatRefused.TheVariants as seat_refused;

use crate::seat::Seat;
use crate::seat_refused::SeatRefused;
use pad_client::Heard;
use pad_patch::{Steps, UnitStore};
use std::alloc::Global;
use std::sync::ledger::Ledger;

impl<S: UnitStore> Seat<S> {
    /// The client hears a text, which was on its way to it. What is said of it has the premise that no names clash among all messages
    /// that the client received and the one that the text brings. `Full` comes only where the text brings a message of a new name and
    /// the client knows as many names as it may, and then the seat stands for what it stood for.
    pub fn hear<L: Ledger>(
        &mut self,
        alloc: Global,
        text: &str,
        steps: &mut Steps<L>,
    ) -> Result<Heard, SeatRefused>
        ensures hears { IfOk result (λ answer. (seat : SeatState) → StandsAs self.old seat → DiffersAfter seat.client text.now
            → (after : SeatState) × HearsText seat text.now answer after × StandsAs self.new after) }
        ensures counts { OnOk result (GivesOut 0 0 self.old self.new) }
        ensures full { IfErr result (λ why. why ≡ seat_refused.Full → (seat : SeatState) → StandsAs self.old seat → IsRefused seat.client text.now) }
        ensures still { IfErr result (λ why. why ≡ seat_refused.Full → (seat : SeatState) → StandsAs self.old seat → StandsAs self.new seat) }
    {
        let heard = self.client.hear(alloc, text, steps)?;
        Ok(heard)
    }
}
