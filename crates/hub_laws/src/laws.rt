//! The laws of a hub's steps. Each function does nothing, or calls the laws on which it stands: its contract is the law.
ghost use Rattle.hub_laws.specs.Laws.{NothingIsInvented, HeldGrows, RunsInventNothing, AcknowledgedAreHeld};
ghost use Rattle.hub_laws.specs.Small.{ToldAreSmall};

use netflux_codec::texts_spell_one_request;
use netflux_core::Keep;

/// Nothing is invented: each content that a step tells is an entry of what the channel holds after the step, or is for a connection.
pub fn nothing_is_invented<K: Keep>()
    ensures { NothingIsInvented K.logs }
{}

/// What a channel holds before a step is the front of what it holds after it.
pub fn held_grows<K: Keep>()
    ensures { HeldGrows K.logs }
{}

/// Nothing is invented in a whole run: each content that any step told is an entry of what the channel holds at the end, or was for a connection.
pub fn runs_invent_nothing<K: Keep>()
    ensures { RunsInventNothing K.logs }
{
    nothing_is_invented::<K>();
    held_grows::<K>();
}

/// What is acknowledged is held: the acknowledgement of a message to a channel says that its content is an entry of what the channel holds.
pub fn acknowledged_are_held<K: Keep>()
    ensures { AcknowledgedAreHeld K.logs }
{
    texts_spell_one_request();
}

/// What is told clients that ask for histories is founded on what is held, and has small numbers.
pub fn told_are_small<K: Keep>()
    ensures { ToldAreSmall K.logs }
{}
