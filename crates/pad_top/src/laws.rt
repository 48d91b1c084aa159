//! Laws over the definitions alone. Each function does nothing: its contract is the law.
ghost use Rattle.pad_top.specs.Laws.{EndsOnce, OrderChangesNoBest, ReceivedOnce, RepeatsChangeNothing};

/// Lines are received as one list of messages, with one number of others.
pub fn lines_are_received_once()
    ensures { ReceivedOnce }
{}

/// An input that has a report is past no limit.
pub fn inputs_end_once()
    ensures { EndsOnce }
{}

/// A line that reads as a message of a line before it changes nothing of what a replay gives.
pub fn repeats_change_nothing()
    ensures { RepeatsChangeNothing }
{}

/// Where nothing overtook, the order of the messages changes nothing of the best chain that a replay reports, nor how many
/// names it knows and how many messages wait.
pub fn order_changes_no_best()
    ensures { OrderChangesNoBest }
{}
