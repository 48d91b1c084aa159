ghost use Rattle.std.specs.Prelude.{◌≡◌, ◌⊎◌, ◌≤◌, ◌<◌, ◌+◌, ◌*◌, ◌++◌, ◌∷◌, [], ℕ, List, drop, length, Ok, Err, IfOk, OnOk, MatchResult, IsErrOf};
ghost use Rattle.pad_edge.specs.Count.{Rose};
ghost use Rattle.disk_volume.specs.Disk.{reads};
ghost use Rattle.keeper_channel.specs.declared.refused.KeeperRefused.{KeeperRefused};
ghost use Rattle.keeper_state.specs.Entries.{entries_from};
ghost use Rattle.keeper_table.specs.Span.{EachBefore};
ghost use Rattle.keeper_state.specs.State.{State, live, AnswersByReading, ReadRefused};
ghost use Rattle.keeper_table.specs.declared.entry.Entry.{Entry};
ghost use Rattle.keeper_table.specs.declared.span.Span.{Span};
ghost use Rattle.netflux_codec.specs.declared.reply.Reply.{Reply};
ghost use Rattle.netflux_codec.specs.declared.reply.Reply.TheVariants.{Ack};
ghost use Rattle.netflux_codec.specs.declared.reply.TheConstants.{MOST_ENTRIES};
ghost use Rattle.netflux_codec.specs.Reply.{HasSmallCounts};
ghost use Rattle.netflux_rooms.specs.Rooms.{tell};
ghost use Rattle.serve_loop.specs.declared.out.Out.{Out};
ghost use Rattle.netflux_core.specs.Channels.{Channels, IsNow, HasLive};
ghost use Rattle.netflux_core.specs.Crashes.{LeavesAsked};
ghost use Rattle.netflux_core.specs.Histories.{channel_of, span_for, entry_reply, tell_entries, told_entries, end_reply, answered};

use crate::keep::Keep;
use disk_volume::Volume;
use keeper_channel::KeeperRefused;
use keeper_table::{Entry, Span};
use netflux_codec::{Ask, Channel, KeeperId, Reply, Since};
use netflux_rooms::push_one;
use serve_loop::Out;
use std::alloc::{AllocError, Global};

/// The channel that a question is about.
pub(crate) fn channel_in(ask: &Ask) -> Channel
    ensures { result ≡ channel_of ask.now }
{
    match ask {
        Ask::History(channel, _) => *channel,
        Ask::At(channel, _) => *channel,
    }
}

/// The text of an entry, by the question.
fn reply_of(keeper: KeeperId, ask: &Ask, index: u32, entry: Entry) -> Reply
    ensures { result ≡ entry_reply keeper ask.now index entry }
{
    match ask {
        Ask::History(channel, _) => {
            Reply::History(keeper, *channel, index, entry.sender, entry.content)
        }
        Ask::At(channel, _) => Reply::Entry(
            keeper,
            *channel,
            index,
            entry.moment,
            entry.sender,
            entry.content,
        ),
    }
}

/// The text of one entry, behind some outputs.
fn push_entry<V: Volume, K: Keep>(
    alloc: Global,
    keeper: &mut K,
    volume: &mut V,
    identity: &KeeperId,
    number: u64,
    ask: &Ask,
    index: u64,
    outs: &mut Vec<Out>,
) -> Result<(), KeeperRefused>
    requires few { index < MOST_ENTRIES }
    requires loaded { K.has_entry keeper.old (channel_of ask.now) index }
    requires sound { K.is_sound keeper.old }
    requires tie { V.tells → HasLive (K.keeps keeper.old) (channel_of ask.now) (V.disk volume.old) }
    ensures sound { K.is_sound keeper.new }
    ensures pushed { V.tells → (channels : Channels) (held suspense : List (List ℕ)) → K.keeps keeper.old channels (V.disk volume.old) → channels.at (channel_of ask.now) ≡ live held suspense
        → MatchResult result (λ _. (outs.new.items ++ tell_entries identity.now number ask.now (entries_from (index + 1) (drop (index + 1) held))
        ≡ outs.old.items ++ tell_entries identity.now number ask.now (entries_from index (drop index held))) × IsNow (K.keeps keeper.new) channels (channel_of ask.now) (live held suspense) (V.disk volume.new))
        (λ why. (next : State) × ReadRefused held suspense why next × IsNow (K.keeps keeper.new) channels (channel_of ask.now) next (V.disk volume.new)) }
    ensures one { OnOk result ((entry : Entry) × (outs.new.items ≡ outs.old.items ++ tell number (entry_reply identity.now ask.now entry.index entry) ∷ [])) }
    ensures entries { OnOk result ((other : ℕ) → K.has_entry keeper.old (channel_of ask.now) other → K.has_entry keeper.new (channel_of ask.now) other) }
    ensures disk { V.tells → V.disk volume.new ≡ V.disk volume.old }
    ensures clock { V.clock volume.new ≤ V.clock volume.old + 2 }
    ensures follows { V.follows volume.old volume.new }
    ensures store { IsErrOf result KeeperRefused.Store → Rose (V.faults volume.old) (V.faults volume.new) }
    ensures kept { IsErrOf result KeeperRefused.Store ⊎ (V.faults volume.new ≡ V.faults volume.old) }
    ensures later { V.faults volume.old ≤ V.faults volume.new }
{
    match keeper.entry_for(alloc, volume, ask, index) {
        Ok(entry) => {
            let reply = reply_of(*identity, ask, index as u32, entry);
            match push_one(alloc, outs, number, &reply) {
                Ok(()) => Ok(()),
                Err(error) => Err(KeeperRefused::NoMemory(error)),
            }
        }
        Err(why) => Err(why),
    }
}

/// The text of each entry from a start on, behind some outputs.
fn push_entries<V: Volume, K: Keep>(
    alloc: Global,
    keeper: &mut K,
    volume: &mut V,
    identity: &KeeperId,
    number: u64,
    ask: &Ask,
    start: u64,
    total: u64,
    outs: &mut Vec<Out>,
) -> Result<(), KeeperRefused>
    requires entries { (index : ℕ) → index < total → K.has_entry keeper.old (channel_of ask.now) index × (index < MOST_ENTRIES) }
    requires sound { K.is_sound keeper.old }
    requires tie { V.tells → HasLive (K.keeps keeper.old) (channel_of ask.now) (V.disk volume.old) }
    ensures sound { K.is_sound keeper.new }
    ensures pushed { V.tells → (channels : Channels) (held suspense : List (List ℕ)) → K.keeps keeper.old channels (V.disk volume.old) → channels.at (channel_of ask.now) ≡ live held suspense
        → total ≡ length held
        → MatchResult result (λ _. (outs.new.items ≡ outs.old.items ++ tell_entries identity.now number ask.now (entries_from start (drop start held)))
        × IsNow (K.keeps keeper.new) channels (channel_of ask.now) (live held suspense) (V.disk volume.new))
        (λ why. (next : State) × ReadRefused held suspense why next × IsNow (K.keeps keeper.new) channels (channel_of ask.now) next (V.disk volume.new)) }
    ensures cost { OnOk result ((entries : List Entry) × (outs.new.items ≡ outs.old.items ++ tell_entries identity.now number ask.now entries) × (V.clock volume.new ≤ V.clock volume.old + 2 * length entries)) }
    ensures disk { V.tells → V.disk volume.new ≡ V.disk volume.old }
    ensures follows { V.follows volume.old volume.new }
    ensures store { IsErrOf result KeeperRefused.Store → Rose (V.faults volume.old) (V.faults volume.new) }
    ensures kept { IsErrOf result KeeperRefused.Store ⊎ (V.faults volume.new ≡ V.faults volume.old) }
    ensures later { V.faults volume.old ≤ V.faults volume.new }
{
    for index in start..total {
        push_entry(alloc, keeper, volume, identity, number, ask, index, outs)?;
    }
    Ok(())
}

/// The text of each entry of a span, behind some outputs.
fn push_span<V: Volume, K: Keep>(
    alloc: Global,
    keeper: &mut K,
    volume: &mut V,
    identity: &KeeperId,
    number: u64,
    ask: &Ask,
    span: Span,
    outs: &mut Vec<Out>,
) -> Result<(), KeeperRefused>
    requires entries { EachBefore span (λ index. K.has_entry keeper.old (channel_of ask.now) index × (index < MOST_ENTRIES)) }
    requires sound { K.is_sound keeper.old }
    requires tie { V.tells → HasLive (K.keeps keeper.old) (channel_of ask.now) (V.disk volume.old) }
    ensures sound { K.is_sound keeper.new }
    ensures pushed { V.tells → (channels : Channels) (held suspense : List (List ℕ)) → K.keeps keeper.old channels (V.disk volume.old) → channels.at (channel_of ask.now) ≡ live held suspense
        → span ≡ span_for ask.now held
        → MatchResult result (λ _. (outs.new.items ≡ outs.old.items ++ tell_entries identity.now number ask.now (told_entries ask.now held span))
        × IsNow (K.keeps keeper.new) channels (channel_of ask.now) (live held suspense) (V.disk volume.new))
        (λ why. (next : State) × ReadRefused held suspense why next × IsNow (K.keeps keeper.new) channels (channel_of ask.now) next (V.disk volume.new)) }
    ensures cost { OnOk result ((entries : List Entry) × (outs.new.items ≡ outs.old.items ++ tell_entries identity.now number ask.now entries) × (V.clock volume.new ≤ V.clock volume.old + 2 * length entries)) }
    ensures disk { V.tells → V.disk volume.new ≡ V.disk volume.old }
    ensures follows { V.follows volume.old volume.new }
    ensures store { IsErrOf result KeeperRefused.Store → Rose (V.faults volume.old) (V.faults volume.new) }
    ensures kept { IsErrOf result KeeperRefused.Store ⊎ (V.faults volume.new ≡ V.faults volume.old) }
    ensures later { V.faults volume.old ≤ V.faults volume.new }
{
    match span {
        Span::Unknown => Ok(()),
        Span::Found(start, total) => push_entries(
            alloc, keeper, volume, identity, number, ask, start, total, outs,
        ),
    }
}

/// The end of an answer.
fn end_of(keeper: KeeperId, ask: &Ask, span: Span) -> Reply
    requires { (start total : ℕ) → span ≡ Span.Found start total → total ≤ MOST_ENTRIES }
    ensures reply { result ≡ end_reply keeper ask.now span }
    ensures small { HasSmallCounts result }
{
    match span {
        Span::Found(_, total) => Reply::HistoryEnd(keeper, channel_in(ask), total as u32),
        Span::Unknown => match ask {
            Ask::History(channel, Since::Known(key)) => {
                Reply::HistoryUnknown(keeper, *channel, *key)
            }
            Ask::History(channel, _) => Reply::HistoryEnd(keeper, *channel, 0),
            Ask::At(channel, _) => Reply::HistoryEnd(keeper, *channel, 0),
        },
    }
}

/// The acknowledgement of a request.
fn acknowledged(alloc: Global, number: u64, seq: u32) -> Result<Vec<Out>, AllocError>
    ensures { IfOk result (λ outs. outs.items ≡ tell number (Ack seq) ∷ []) }
{
    let mut outs = Vec::new(alloc);
    push_one(alloc, &mut outs, number, &Reply::Ack(seq))?;
    Ok(outs)
}

/// The answer to a question, from where it starts: all entries are read before any output is given.
fn tell_history<V: Volume, K: Keep>(
    alloc: Global,
    keeper: &mut K,
    volume: &mut V,
    identity: &KeeperId,
    number: u64,
    seq: u32,
    ask: &Ask,
    span: Span,
) -> Result<Vec<Out>, KeeperRefused>
    requires few { (start total : ℕ) → span ≡ Span.Found start total → total ≤ MOST_ENTRIES }
    requires entries { EachBefore span (λ index. K.has_entry keeper.old (channel_of ask.now) index × (index < MOST_ENTRIES)) }
    requires sound { K.is_sound keeper.old }
    requires tie { V.tells → HasLive (K.keeps keeper.old) (channel_of ask.now) (V.disk volume.old) }
    ensures sound { K.is_sound keeper.new }
    ensures told { V.tells → (channels : Channels) (held suspense : List (List ℕ)) → K.keeps keeper.old channels (V.disk volume.old) → channels.at (channel_of ask.now) ≡ live held suspense
        → span ≡ span_for ask.now held
        → MatchResult result (λ outs. (outs.items ≡ answered identity.now number seq ask.now held) × IsNow (K.keeps keeper.new) channels (channel_of ask.now) (live held suspense) (V.disk volume.new))
        (λ why. (next : State) × ReadRefused held suspense why next × IsNow (K.keeps keeper.new) channels (channel_of ask.now) next (V.disk volume.new)) }
    ensures cost { IfOk result (λ outs. (entries : List Entry) × (end : Reply) × (outs.items ≡ tell number (Ack seq) ∷ (tell_entries identity.now number ask.now entries ++ tell number end ∷ []))
        × (V.clock volume.new ≤ V.clock volume.old + 2 * length entries)) }
    ensures disk { V.tells → V.disk volume.new ≡ V.disk volume.old }
    ensures follows { V.follows volume.old volume.new }
    ensures store { IsErrOf result KeeperRefused.Store → Rose (V.faults volume.old) (V.faults volume.new) }
    ensures kept { IsErrOf result KeeperRefused.Store ⊎ (V.faults volume.new ≡ V.faults volume.old) }
    ensures later { V.faults volume.old ≤ V.faults volume.new }
{
    let mut outs = match acknowledged(alloc, number, seq) {
        Ok(outs) => outs,
        Err(error) => return Err(KeeperRefused::NoMemory(error)),
    };
    match push_span(
        alloc, keeper, volume, identity, number, ask, span, &mut outs,
    ) {
        Ok(()) => match push_one(alloc, &mut outs, number, &end_of(*identity, ask, span)) {
            Ok(()) => Ok(outs),
            Err(error) => Err(KeeperRefused::NoMemory(error)),
        },
        Err(why) => Err(why),
    }
}

/// The answer to a question: the acknowledgement, the entries from where it starts, and the end; or why the keeper refused it.
pub(crate) fn read_history<V: Volume, K: Keep>(
    alloc: Global,
    keeper: &mut K,
    volume: &mut V,
    identity: &KeeperId,
    number: u64,
    seq: u32,
    ask: &Ask,
) -> Result<Vec<Out>, KeeperRefused>
    requires sound { K.is_sound keeper.old }
    requires tie { V.tells → (channels : Channels) × K.keeps keeper.old channels (V.disk volume.old) }
    ensures sound { K.is_sound keeper.new }
    ensures told { V.tells → (channels : Channels) → K.keeps keeper.old channels (V.disk volume.old)
        → (next : State) × AnswersByReading (K.logs.finds (channel_of ask.now) (reads (V.disk volume.old))) channels.loaded (channels.at (channel_of ask.now)) (λ held outs. outs.items ≡ answered identity.now number seq ask.now held) result next
        × IsNow (K.keeps keeper.new) channels (channel_of ask.now) next (V.disk volume.new)
        × LeavesAsked K.logs channels (channel_of ask.now) next (V.disk volume.old) (V.disk volume.new) }
    ensures cost { IfOk result (λ outs. (entries : List Entry) × (end : Reply) × (outs.items ≡ tell number (Ack seq) ∷ (tell_entries identity.now number ask.now entries ++ tell number end ∷ []))
        × (K.is_loaded keeper.old (channel_of ask.now) → V.clock volume.new ≤ V.clock volume.old + 2 * length entries)) }
    ensures follows { V.follows volume.old volume.new }
    ensures store { IsErrOf result KeeperRefused.Store → Rose (V.faults volume.old) (V.faults volume.new) }
    ensures kept { IsErrOf result KeeperRefused.Store ⊎ (V.faults volume.new ≡ V.faults volume.old) }
    ensures later { V.faults volume.old ≤ V.faults volume.new }
{
    match keeper.find_span(alloc, volume, ask) {
        Ok(span) => tell_history(alloc, keeper, volume, identity, number, seq, ask, span),
        Err(why) => Err(why),
    }
}
