//! The laws of all that clients with their connections do.
ghost use Rattle.world_laws.specs.Laws.{ChannelsStay, RunsHavePasts};
ghost use Rattle.world_laws.specs.Reading.{ContentsReadBack, AcksReadBack};
ghost use Rattle.world_laws.specs.Told.{HeardKeepChannel, TakenAreEntries, LeftAreSpelled, SeatsAgree, FoundedBringEntries, StepsTell};

use client_laws::laws::caught_up_agree;
use hub_laws::laws::told_are_small;
use netflux_core::Keep;

/// Once a client has a channel, it has it after each act.
pub fn channels_stay()
    ensures { ChannelsStay }
{}

/// All that a client with its connection does is a past of the client, and the texts that it heard brought and answered all of it.
pub fn runs_have_pasts()
    ensures { RunsHavePasts }
{
    channels_stay();
}

/// What is heard of the text of a reply brings the content that the reply brings.
pub fn contents_read_back()
    ensures { ContentsReadBack }
{}

/// What is heard as an acknowledgement was said as one.
pub fn acks_read_back()
    ensures { AcksReadBack }
{}

/// What a hub founds on what it holds brings entries of each list of which that is a front.
pub fn founded_bring_entries()
    ensures { FoundedBringEntries }
{}

/// Each text that a step of the hub tells brings only entries of a list of which what it holds is a front.
pub fn steps_tell<K: Keep>()
    ensures { StepsTell K.logs }
{
    told_are_small::<K>();
    founded_bring_entries();
}

/// A client has the channel that it had when it heard a text.
pub fn heard_keep_channel()
    ensures { HeardKeepChannel }
{
    channels_stay();
}

/// Where all texts bring only entries of a list, nothing that a client took was invented.
pub fn taken_are_entries()
    ensures { TakenAreEntries }
{
    contents_read_back();
}

/// Where acknowledgements are of entries, too, each own message that left the outbox is spelled by an entry.
pub fn left_are_spelled()
    ensures { LeftAreSpelled }
{
    contents_read_back();
    acks_read_back();
    heard_keep_channel();
}

/// So a client that is caught up with the list agrees with it.
pub fn seats_agree()
    ensures { SeatsAgree }
{
    caught_up_agree();
    taken_are_entries();
    left_are_spelled();
}
