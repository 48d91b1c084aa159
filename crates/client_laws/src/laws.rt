//! The laws of all that befalls a client.
ghost use Rattle.client_laws.specs.Laws.{ReceivedAreHad, RepairedIsBest, OwnWaitOrLeft, CaughtUpAgree, AgreeingTextsAreOne, LeavesByAnswer};

use pad_message::contents_spell_one_message;
use pad_model::{at_most_one_best, order_is_no_part};

/// Once a repair has ended, a client has received exactly what it heard since that repair began, and its own messages since then.
pub fn received_are_had()
    ensures { ReceivedAreHad }
{
    contents_spell_one_message();
}

/// Once a repair has ended, the best chain is the best of all messages received, from the first base on.
pub fn repaired_is_best()
    ensures { RepairedIsBest }
{
    contents_spell_one_message();
}

/// An own message since the last repair that ended began is in the outbox, or has left it.
pub fn own_wait_or_left()
    ensures { OwnWaitOrLeft }
{}

/// A client that is caught up with a list agrees with it, if nothing was invented and its own messages were kept.
pub fn caught_up_agree()
    ensures { CaughtUpAgree }
{
    received_are_had();
    repaired_is_best();
    own_wait_or_left();
    contents_spell_one_message();
}

/// Two clients that agree with one list have one committed text, if no names of its messages clash.
pub fn agreeing_texts_are_one()
    ensures { AgreeingTextsAreOne }
{
    at_most_one_best();
    order_is_no_part();
}

/// An own message leaves the outbox only by a reply that answers it.
pub fn leaves_by_answer()
    ensures { LeavesByAnswer }
{}
