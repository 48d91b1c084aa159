ghost use Rattle.std.specs.Prelude.{◌≡◌, ◌≤◌, ◌<◌, ◌+◌, ◌++◌, ◌↔◌, [], ◌∷◌, length, Some, IsTrue, is_some, true, IfOk, IfErr, OnOk, OnErr};
ghost use Rattle.pad_message.specs.Content.{most_operations};
ghost use Rattle.pad_message.specs.Kind.{HasInterval};
ghost use Rattle.pad_message.specs.Message.{name_of};
ghost use Rattle.client_outbox.specs.Outbox.{most_unacknowledged};
ghost use Rattle.client_requests.specs.State.{no_requests, repairs, awaits};
ghost use Rattle.client_requests.specs.Refusal.{IsOther, IsJoinCause, IsOpenCause, IsOpen, IsAskCause};
ghost use Rattle.client_requests.specs.Calls.{Joins, Leaves, Questions, Asks, with_repair, Sends, Resends, without_connection};

use crate::asked::Asked;
use crate::client_refused::ClientRefused;
use crate::joining::Joining;
use client_outbox::{Outbox, history_text, join_text, leave_text, message_text};
use netflux_codec::{Channel, Id, KeeperId, Since};
use pad_edge::{Wire, Wires};
use pad_message::Message;
use pad_text::Name;
use std::alloc::{AllocError, Global};
use std::marker::Model;

/// What a client has requested over its connection, with the numbers of its requests, and what awaits its answer.
#[derive(Debug, Drop)]
pub struct Requests {
    pub(crate) last: u32,
    pub(crate) channel: Option<Channel>,
    pub(crate) joined: bool,
    pub(crate) joining: Option<Joining>,
    pub(crate) identity: Option<Id>,
    pub(crate) keeper: Option<KeeperId>,
    pub(crate) asked: Asked,
    pub(crate) leaves: Vec<u32>,
    pub(crate) outbox: Outbox,
}

impl Model for Requests {
    ghost use Rattle.std.specs.Prelude.{◌≡◌, true, is_some};
    ghost use Rattle.client_requests.specs.State.{State};

    ghost Value = { State };

    ghost view = { λ requests. record { last = requests.last; channel = requests.channel; joined = requests.joined; joining = requests.joining; identity = requests.identity; keeper = requests.keeper; asked = requests.asked; leaves = requests.leaves.items; outbox = requests.outbox } };

    ghost invariant = { λ requests. requests.joined ≡ true → is_some requests.channel ≡ true };
}

/// Whether a channel that was joined is another one.
fn is_other(joined: Option<Channel>, channel: &Channel) -> bool
    ensures { IsTrue result ↔ IsOther joined channel.now }
{
    match joined {
        Some(joined) => joined != *channel,
        None => false,
    }
}

/// Adds a number at the end. If memory runs out, they are as they were.
fn add_number(numbers: &mut Vec<u32>, number: u32) -> Result<(), AllocError>
    ensures ok { OnOk result (numbers.new.items ≡ numbers.old.items ++ number ∷ []) }
    ensures err { OnErr result (numbers.new.items ≡ numbers.old.items) }
{
    numbers.push(number)?;
    Ok(())
}

impl Requests {
    /// Nothing was requested yet.
    pub fn new(alloc: Global) -> Requests
        ensures { result ≡ no_requests }
    {
        Requests {
            last: 0,
            channel: None,
            joined: false,
            joining: None,
            identity: None,
            keeper: None,
            asked: Asked::Nothing,
            leaves: Vec::new(alloc),
            outbox: Outbox::new(alloc),
        }
    }

    /// The number given out last; 0 before the first.
    pub fn last(&self) -> u32
        ensures { result ≡ self.now.last }
    {
        self.last
    }

    /// What the keeper was asked and has not answered.
    pub fn asked(&self) -> Asked
        ensures { result ≡ self.now.asked }
    {
        self.asked
    }

    /// Lends the own messages that were not acknowledged.
    pub fn outbox(&self) -> &Outbox
        ensures { result.now ≡ self.now.outbox }
    {
        &self.outbox
    }

    /// Whether a repair runs.
    pub fn repairs(&self) -> bool
        ensures { result ≡ repairs self.now.asked }
    {
        match self.asked {
            Asked::Repair(_) => true,
            Asked::Nothing | Asked::History(_, _) => false,
        }
    }

    /// Whether a join, a leave, a history or a message of the outbox still awaits its answer.
    pub fn awaits(&self) -> bool
        ensures { result ≡ awaits self.now }
    {
        self.joining.is_some()
            || !self.leaves.is_empty()
            || self.asked != Asked::Nothing
            || self.outbox.awaits()
    }

    /// Joins a channel: the text that asks for it. `Joined` comes exactly if a channel is joined or being joined, and then
    /// `OtherChannel` exactly if the client has joined another one before.
    pub fn join(&mut self, alloc: Global, channel: Channel) -> Result<Wire, ClientRefused>
        requires { self.old.last < 4294967000 }
        ensures joins { IfOk result (λ wire. Joins self.old channel wire self.new) }
        ensures cause { IfErr result (IsJoinCause self.old channel) }
        ensures unchanged { OnErr result (self.new ≡ self.old) }
    {
        if self.joined || self.joining.is_some() {
            return Err(ClientRefused::Joined);
        }
        if is_other(self.channel, &channel) {
            return Err(ClientRefused::OtherChannel);
        }
        let number = self.last + 1;
        let wire = join_text(alloc, number, channel)?;
        self.last = number;
        self.joining = Some(Joining { number, channel });
        self.keeper = None;
        Ok(wire)
    }

    /// Leaves the channel, without a reason: the text that asks for it. The client stays joined until that is acknowledged.
    pub fn leave(&mut self, alloc: Global) -> Result<Wire, ClientRefused>
        requires { self.old.last < 4294967000 }
        ensures leaves { IfOk result (λ wire. Leaves self.old wire self.new) }
        ensures cause { IfErr result (IsOpenCause self.old) }
        ensures unchanged { OnErr result (self.new ≡ self.old) }
    {
        let channel = self.open_channel()?;
        let number = self.last + 1;
        let wire = leave_text(alloc, number, channel)?;
        add_number(&mut self.leaves, number)?;
        self.last = number;
        Ok(wire)
    }

    /// Asks the keeper for a history of the channel: the text that asks for it.
    pub fn ask(&mut self, alloc: Global, from: Since) -> Result<Wire, ClientRefused>
        requires { self.old.last < 4294967000 }
        ensures asks { IfOk result (λ wire. Asks self.old from wire self.new) }
        ensures cause { IfErr result (IsAskCause self.old) }
        ensures unchanged { OnErr result (self.new ≡ self.old) }
    {
        let wire = self.question(alloc, from)?;
        let number = self.last + 1;
        self.last = number;
        self.asked = Asked::History(number, from == Since::Default);
        Ok(wire)
    }

    /// The text that asks the keeper for a history, under the next number. Nothing is asked by it yet.
    pub fn question(&self, alloc: Global, from: Since) -> Result<Wire, ClientRefused>
        requires { self.now.last < 4294967000 }
        ensures question { IfOk result (λ wire. Questions self.now from wire) }
        ensures cause { IfErr result (IsAskCause self.now) }
    {
        let channel = self.open_channel()?;
        let Some(keeper) = self.keeper else {
            return Err(ClientRefused::NoKeeper);
        };
        if self.asked != Asked::Nothing {
            return Err(ClientRefused::Asking);
        }
        let wire = history_text(alloc, self.last + 1, &keeper, channel, from)?;
        Ok(wire)
    }

    /// The full history is asked for a repair, by the text that `question` gave.
    pub fn begin_repair(&mut self)
        requires { self.old.last < 4294967000 }
        ensures { self.new ≡ with_repair self.old }
    {
        let number = self.last + 1;
        self.last = number;
        self.asked = Asked::Repair(number);
    }

    /// Sends an own message of this name to the channel: the text that does. If memory runs out, nothing is changed.
    pub fn send(
        &mut self,
        alloc: Global,
        channel: &Channel,
        name: Name,
        message: Message,
    ) -> Result<Wire, AllocError>
        requires its { self.old.channel ≡ Some channel.now }
        requires number { self.old.last < 4294967200 }
        requires room { length self.old.outbox < most_unacknowledged }
        requires named { name ≡ name_of message }
        requires few { length message.patch.ops ≤ most_operations }
        requires interval { HasInterval message.kind }
        ensures sends { IfOk result (λ wire. Sends self.old message wire self.new) }
        ensures unchanged { OnErr result (self.new ≡ self.old) }
    {
        let number = self.last + 1;
        let wire = message_text(alloc, number, channel, &message)?;
        self.outbox.add(name, message, number)?;
        self.last = number;
        Ok(wire)
    }

    /// Sends each message of the outbox again, in order, under new numbers: the texts.
    pub fn resend(&mut self, alloc: Global) -> Result<Wires, ClientRefused>
        requires { self.old.last < 4294967000 }
        ensures resends { IfOk result (λ wires. Resends self.old wires self.new) }
        ensures cause { IfErr result (IsOpenCause self.old) }
        ensures unchanged { OnErr result (self.new ≡ self.old) }
    {
        let channel = self.open_channel()?;
        let _count = self.outbox.len();
        let texts = self.outbox.texts_again(alloc, &channel, self.last)?;
        self.outbox.number_again(&mut self.last);
        Ok(Wires::new(texts))
    }

    /// The connection is gone: the client is not joined and asks nothing, a running repair is given up, and the outbox stays, not
    /// awaited. It takes no memory.
    pub fn lost(&mut self)
        ensures { self.new ≡ without_connection self.old }
    {
        self.joined = false;
        self.joining = None;
        self.identity = None;
        self.keeper = None;
        self.asked = Asked::Nothing;
        self.leaves.clear();
        self.outbox.forget_all();
    }

    /// The channel, if no repair runs and it is joined.
    pub fn open_channel(&self) -> Result<Channel, ClientRefused>
        ensures open { IfOk result (λ channel. IsOpen self.now × (self.now.channel ≡ Some channel)) }
        ensures cause { IfErr result (IsOpenCause self.now) }
    {
        if self.repairs() {
            return Err(ClientRefused::Repairing);
        }
        if !self.joined {
            return Err(ClientRefused::NotJoined);
        }
        match self.channel {
            Some(channel) => Ok(channel),
            None => Err(ClientRefused::NotJoined),
        }
    }
}
