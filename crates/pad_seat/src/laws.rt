//! What is said of all states.

ghost use Rattle.pad_seat.specs.State.{SeatState, View, StandsAs, without_seat};

/// What stands for a client stands for it too once both have lost the connection.
pub fn losses_stand()
    ensures { (held : View) (seat : SeatState) → StandsAs held seat → StandsAs (without_seat held) (without_seat seat) }
{}
