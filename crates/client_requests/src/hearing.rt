//! What replies do.

ghost use Rattle.std.specs.Prelude.{◌≡◌, ◌↔◌, ◌==◌, ℕ, not, Some, None, IsTrue, Contains, filter};
ghost use Rattle.client_requests.specs.State.{IsAskedUnder};
ghost use Rattle.client_requests.specs.Hear.{Either, IsJoiningUnder, Forgets, IsJoining, IsOwnJoin, HearsMember, HearsKeeper, HearsAck, with_nothing_asked, with_entry, with_entry_of};

use crate::asked::Asked;
use crate::joining::Joining;
use crate::requests::Requests;
use netflux_codec::{Channel, Id, KeeperId};
use pad_text::Name;

/// Whether a channel is being joined under this number.
fn is_joining_under(joining: &Option<Joining>, number: u32) -> bool
    ensures { IsTrue result ↔ IsJoiningUnder number joining.now }
{
    match joining {
        Some(joining) => number == joining.number,
        None => false,
    }
}

/// Whether a history is asked under this number.
fn is_asked_under(asked: Asked, number: u32) -> bool
    ensures { IsTrue result ↔ IsAskedUnder number asked }
{
    match asked {
        Asked::Nothing => false,
        Asked::History(other, _) | Asked::Repair(other) => number == other,
    }
}

/// What is being joined after an error of this number.
fn still_joining(joining: Option<Joining>, number: u32) -> Option<Joining>
    ensures { Either (IsJoiningUnder number joining) (result ≡ None) (result ≡ joining) }
{
    if is_joining_under(&joining, number) {
        return None;
    }
    joining
}

/// What is asked after an error of this number.
fn still_asked(asked: Asked, number: u32) -> Asked
    ensures { Either (IsAskedUnder number asked) (result ≡ Asked.Nothing) (result ≡ asked) }
{
    if is_asked_under(asked, number) {
        return Asked::Nothing;
    }
    asked
}

/// Whether this channel is being joined.
fn is_joining(joining: Option<Joining>, channel: &Channel) -> bool
    ensures { IsTrue result ↔ IsJoining joining channel.now }
{
    match joining {
        Some(joining) => joining.channel == *channel,
        None => false,
    }
}

/// Whether this is the client's identity.
fn is_own(identity: Option<Id>, id: &Id) -> bool
    ensures { IsTrue result ↔ (identity ≡ Some id.now) }
{
    match identity {
        Some(own) => own == *id,
        None => false,
    }
}

/// Whether the number is one of these.
fn has(numbers: &[u32], number: u32) -> bool
    ensures { IsTrue result ↔ Contains numbers.now number }
{
    numbers.contains(&number)
}

/// Without this number.
fn let_go(numbers: &mut Vec<u32>, number: u32)
    ensures { numbers.new.items ≡ filter (λ (other : ℕ). not (number == other)) numbers.old.items }
{
    numbers.retain(|other| number != *other);
}

impl Requests {
    /// Whether these are the digits of the channel that was joined once.
    pub fn is_channel(&self, target: &str) -> bool
        ensures { IsTrue result ↔ (self.now.channel ≡ Some target.now) }
    {
        match &self.channel {
            Some(channel) => channel.as_str() == target,
            None => false,
        }
    }

    /// The identity that the server gave the client.
    pub fn hear_id(&mut self, id: Id)
        ensures { self.new ≡ record self.old { identity = Some id } }
    {
        self.identity = Some(id);
    }

    /// The request of this number was not done: nothing is joined, left, asked or sent under it any more. A repair of this number is
    /// given up; an own message stays in the outbox.
    pub fn forget(&mut self, number: u32)
        ensures { Forgets number self.old self.new }
    {
        self.joining = still_joining(self.joining, number);
        self.asked = still_asked(self.asked, number);
        let_go(&mut self.leaves, number);
        self.outbox.forget_under(number);
    }

    /// Somebody is in a channel. If it is the client in the channel that is being joined, it has joined, and the answer is true.
    pub fn hear_member(&mut self, id: &Id, channel: Channel) -> bool
        ensures { HearsMember self.old id.now channel result self.new }
    {
        if !self.is_own_join(id, &channel) {
            return false;
        }
        self.joining = None;
        self.joined = true;
        self.channel = Some(channel);
        true
    }

    /// Whether this is the client's identity, and the channel that is being joined.
    fn is_own_join(&self, id: &Id, channel: &Channel) -> bool
        ensures { IsTrue result ↔ IsOwnJoin self.now id.now channel.now }
    {
        is_own(self.identity, id) && is_joining(self.joining, channel)
    }

    /// A keeper is in a channel: that of the client's channel is kept for questions.
    pub fn hear_keeper(&mut self, keeper: KeeperId, channel: &Channel)
        ensures { HearsKeeper self.old keeper channel.now self.new }
    {
        let its = match self.joining {
            Some(joining) => Some(joining.channel),
            None => self.channel,
        };
        if its == Some(*channel) {
            self.keeper = Some(keeper);
        }
    }

    /// An acknowledgement of a leave, else of a message of the outbox; false if nothing awaits it.
    pub fn hear_ack(&mut self, number: u32) -> bool
        ensures { HearsAck self.old number result self.new }
    {
        if has(self.leaves.as_slice(), number) {
            let_go(&mut self.leaves, number);
            self.joined = false;
            return true;
        }
        if self.outbox.is_awaited(number) {
            self.outbox.let_go_under(number);
            return true;
        }
        false
    }

    /// What was asked has ended, with or without an answer.
    pub fn end(&mut self)
        ensures { self.new ≡ with_nothing_asked self.old }
    {
        self.asked = Asked::Nothing;
    }

    /// An entry was heard: the next one is not the first.
    pub fn hear_entry(&mut self)
        ensures { self.new ≡ with_entry self.old }
    {
        if let Asked::History(number, _) = self.asked {
            self.asked = Asked::History(number, false);
        }
    }

    /// An entry of this name was heard: it acknowledges the own messages of that name.
    pub fn hear_entry_of(&mut self, name: &Name)
        ensures { self.new ≡ with_entry_of name.now self.old }
    {
        self.hear_entry();
        self.outbox.let_go_named(name);
    }
}
