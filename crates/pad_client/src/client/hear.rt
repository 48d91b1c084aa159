//! A text that is heard.

ghost use Rattle.std.specs.Prelude.{◌≡◌, ◌≢◌, ℕ, List, Some, IfOk, IfErr};
ghost use Rattle.pad_message.specs.declared.message.Message.{Message};
ghost use Rattle.netflux_codec.specs.declared.reply.Reply.TheVariants as reply;
ghost use Rattle.client_copy.specs.View.{NoClash};
ghost use Rattle.pad_client.specs.declared.hear_refused.HearRefused.TheVariants.{Full};
ghost use Rattle.pad_client.specs.State.{ClientState};
ghost use Rattle.pad_client.specs.Content.{MeetsFull};
ghost use Rattle.pad_client.specs.Hear.{HearsWho, HearsAcked, IfItsChannel, HearsEnd, HearsUnknown, addressed_to, HearsAddressed, HearsReply, Hears, IsBrought, IsBroughtBy, IsRefused};
ghost use Rattle.pad_client.specs.View.{DiffersAfter, DiffersAfterReply, DiffersAfterAddressed, StandsAs, StandsStill};

use crate::client::Client;
use crate::hear_refused::HearRefused;
use crate::heard::Heard;
use client_requests::{Asked, Requests};
use netflux_codec::{Channel, Reply, ReplyRefused, Who, read_reply};
use pad_patch::{Steps, UnitStore};
use std::alloc::Global;
use std::sync::ledger::Ledger;

/// Somebody is in a channel: the client itself, another one, or a keeper.
fn hear_who(requests: &mut Requests, who: Who, channel: Channel) -> Heard
    ensures { HearsWho requests.old who channel result requests.new }
{
    match who {
        Who::Member(id) => {
            if requests.hear_member(&id, channel) {
                Heard::Joined
            } else {
                Heard::Ignored
            }
        }
        Who::Keeper(keeper) => {
            requests.hear_keeper(keeper, &channel);
            Heard::Ignored
        }
    }
}

/// An acknowledgement: of a leave, else of a message of the outbox, else of nothing.
fn hear_acked(requests: &mut Requests, number: u32) -> Heard
    ensures { HearsAcked requests.old number result requests.new }
{
    if requests.hear_ack(number) {
        Heard::Acked(number)
    } else {
        Heard::Ignored
    }
}

/// What was asked by no repair is answered.
fn end_answered(requests: &mut Requests, total: u32) -> Heard
    ensures { HearsEnd requests.old.asked requests.old total result requests.new }
{
    match requests.asked() {
        Asked::Nothing | Asked::Repair(_) => Heard::Ignored,
        Asked::History(_, _) => {
            requests.end();
            Heard::End(u64::from(total))
        }
    }
}

/// The keeper does not know a key of a channel.
fn hear_unknown(requests: &mut Requests, channel: &Channel) -> Heard
    ensures { IfItsChannel requests.old channel.now result requests.new (HearsUnknown requests.old.asked requests.old result requests.new) }
{
    if requests.is_channel(channel.as_str()) {
        return end_unanswered(requests);
    }
    Heard::Ignored
}

/// What was asked is not answered. A repair goes on.
fn end_unanswered(requests: &mut Requests) -> Heard
    ensures { HearsUnknown requests.old.asked requests.old result requests.new }
{
    match requests.asked() {
        Asked::Nothing | Asked::Repair(_) => Heard::Ignored,
        Asked::History(_, _) => {
            requests.end();
            Heard::Unknown
        }
    }
}

impl<S: UnitStore> Client<S> {
    /// Hears a text: the first of the answers that applies. `Full` comes only where the text brings a message of a new name and the
    /// chain knows as many names as it may; then the client stands for what it stood for. After want of memory it may only be dropped.
    pub fn hear<L: Ledger>(
        &mut self,
        alloc: Global,
        text: &str,
        steps: &mut Steps<L>,
    ) -> Result<Heard, HearRefused>
        ensures hears { IfOk result (λ answer. (client : ClientState) → StandsAs self.old client → DiffersAfter client text.now
            → (after : ClientState) × Hears client text.now answer after × StandsAs self.new after) }
        ensures full { IfErr result (λ refused. refused ≡ Full → (client : ClientState) → StandsAs self.old client → IsRefused client text.now) }
        ensures still { IfErr result (λ refused. refused ≡ Full → StandsStill self.old self.new) }
        ensures last { self.new.requests.last ≡ self.old.requests.last }
        ensures strokes { self.new.copy.strokes ≡ self.old.copy.strokes }
    {
        match read_reply(alloc, text) {
            Ok(reply) => self.hear_reply(alloc, reply, steps),
            Err(ReplyRefused::Strange) => Ok(Heard::Strange),
            Err(ReplyRefused::NoMemory(error)) => Err(HearRefused::NoMemory(error)),
        }
    }

    /// Hears a reply.
    fn hear_reply<L: Ledger>(
        &mut self,
        alloc: Global,
        reply: Reply,
        steps: &mut Steps<L>,
    ) -> Result<Heard, HearRefused>
        ensures hears { IfOk result (λ answer. (client : ClientState) → StandsAs self.old client → DiffersAfterReply client reply
            → (after : ClientState) × HearsReply client reply answer after × StandsAs self.new after) }
        ensures full { IfErr result (λ refused. refused ≡ Full → (client : ClientState) → StandsAs self.old client → (message : Message) × IsBroughtBy client reply message × MeetsFull client message) }
        ensures still { IfErr result (λ refused. refused ≡ Full → StandsStill self.old self.new) }
        ensures last { self.new.requests.last ≡ self.old.requests.last }
        ensures strokes { self.new.copy.strokes ≡ self.old.copy.strokes }
    {
        match reply {
            Reply::Ident(id) => {
                self.requests.hear_id(id);
                Ok(self.told(Heard::Ident))
            }
            Reply::Error(number, word, _) => {
                self.requests.forget(number);
                Ok(self.told(Heard::Error(number, word)))
            }
            Reply::Member(who, channel) => {
                let heard = hear_who(&mut self.requests, who, channel);
                Ok(self.told(heard))
            }
            Reply::Ack(number) => {
                let heard = hear_acked(&mut self.requests, number);
                Ok(self.told(heard))
            }
            Reply::Msg(_, target, content) => {
                self.hear_content(alloc, target.as_str(), content.as_str(), false, steps)
            }
            Reply::History(_, channel, _, _, content) => {
                self.hear_content(alloc, channel.as_str(), content.as_str(), true, steps)
            }
            Reply::HistoryEnd(_, channel, total) => self.hear_end(alloc, &channel, total, steps),
            Reply::HistoryUnknown(_, channel, _) => {
                let heard = hear_unknown(&mut self.requests, &channel);
                Ok(self.told(heard))
            }
            Reply::Joined(_, _) => Ok(self.told(Heard::Ignored)),
            Reply::Gone(_, _, _) => Ok(self.told(Heard::Ignored)),
            Reply::Entry(_, _, _, _, _, _) => Ok(self.told(Heard::Ignored)),
        }
    }

    /// Hears the end of a history of a channel.
    fn hear_end<L: Ledger>(
        &mut self,
        alloc: Global,
        channel: &Channel,
        total: u32,
        steps: &mut Steps<L>,
    ) -> Result<Heard, HearRefused>
        ensures hears { IfOk result (λ answer. (keeper : List ℕ) (client : ClientState) → StandsAs self.old client → NoClash client.copy.pad.all
            → (after : ClientState) × HearsReply client (reply.HistoryEnd keeper channel.now total) answer after × StandsAs self.new after) }
        ensures memory { IfErr result (λ refused. refused ≢ Full) }
        ensures last { self.new.requests.last ≡ self.old.requests.last }
        ensures strokes { self.new.copy.strokes ≡ self.old.copy.strokes }
    {
        if self.requests.is_channel(channel.as_str()) {
            return self.end_history(alloc, total, steps);
        }
        Ok(self.told(Heard::Ignored))
    }

    /// Hears the end of a history of the client's channel.
    fn end_history<L: Ledger>(
        &mut self,
        alloc: Global,
        total: u32,
        steps: &mut Steps<L>,
    ) -> Result<Heard, HearRefused>
        ensures hears { IfOk result (λ answer. (keeper channel : List ℕ) (client : ClientState) → StandsAs self.old client → NoClash client.copy.pad.all → client.requests.channel ≡ Some channel
            → (after : ClientState) × HearsReply client (reply.HistoryEnd keeper channel total) answer after × StandsAs self.new after) }
        ensures memory { IfErr result (λ refused. refused ≢ Full) }
        ensures last { self.new.requests.last ≡ self.old.requests.last }
        ensures strokes { self.new.copy.strokes ≡ self.old.copy.strokes }
    {
        match self.repair.take() {
            Some(repair) => self.end_repair(alloc, repair, steps),
            None => Ok(end_answered(&mut self.requests, total)),
        }
    }

    /// Hears a content for a channel or a connection; `entry` tells whether it is an entry of a history.
    fn hear_content<L: Ledger>(
        &mut self,
        alloc: Global,
        target: &str,
        content: &str,
        entry: bool,
        steps: &mut Steps<L>,
    ) -> Result<Heard, HearRefused>
        ensures hears { IfOk result (λ answer. (client : ClientState) → StandsAs self.old client → DiffersAfterAddressed client (addressed_to target.now entry content.now)
            → (after : ClientState) × HearsAddressed client (addressed_to target.now entry content.now) answer after × StandsAs self.new after) }
        ensures full { IfErr result (λ refused. refused ≡ Full → (client : ClientState) → StandsAs self.old client
            → (message : Message) × IsBrought client (addressed_to target.now entry content.now) message × MeetsFull client message) }
        ensures still { IfErr result (λ refused. refused ≡ Full → StandsStill self.old self.new) }
        ensures last { self.new.requests.last ≡ self.old.requests.last }
        ensures strokes { self.new.copy.strokes ≡ self.old.copy.strokes }
    {
        if self.requests.is_channel(target) {
            return self.take(alloc, content, entry, steps);
        }
        Ok(Heard::Ignored)
    }
}
