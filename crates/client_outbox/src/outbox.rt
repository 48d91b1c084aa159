ghost use Rattle.std.specs.Prelude.{◌≡◌, ◌≤◌, ◌<◌, ◌^◌, ◌+◌, ◌↔◌, [], ◌∷◌, ◌++◌, length, Some, IsTrue, OnOk, OnErr, IfOk};
ghost use Rattle.pad_message.specs.Content.{most_operations};
ghost use Rattle.pad_message.specs.Kind.{HasInterval};
ghost use Rattle.pad_message.specs.Message.{name_of};
ghost use Rattle.client_outbox.specs.Outbox.{most_unacknowledged, IsAwaited, some_awaits, forgotten_under, all_forgotten, without_number, without_name, sent_again, texts_again};

use crate::own::Own;
use crate::texts::message_text;
use netflux_codec::Channel;
use pad_edge::Wire;
use pad_message::Message;
use pad_text::Name;
use std::alloc::{AllocError, Global};
use std::marker::Model;

/// The most own messages that are not acknowledged.
pub const MOST_UNACKNOWLEDGED: usize = 64;

/// Own messages that were not acknowledged, the oldest first, at most [`MOST_UNACKNOWLEDGED`]. Contracts see the list.
#[derive(Debug, Drop)]
pub struct Outbox {
    messages: Vec<Own>,
}

impl Model for Outbox {
    ghost use Rattle.std.specs.Prelude.{List, ◌≤◌, length};
    ghost use Rattle.client_outbox.specs.Outbox.{Unacknowledged, most_unacknowledged};

    ghost Value = { List Unacknowledged };

    ghost view = { λ outbox. outbox.messages.items };

    ghost invariant = { λ outbox. length outbox.messages.items ≤ most_unacknowledged };
}

impl Outbox {
    /// An empty outbox.
    pub fn new(alloc: Global) -> Outbox
        ensures { result ≡ [] }
    {
        Outbox {
            messages: Vec::new(alloc),
        }
    }

    /// How many messages there are.
    pub fn len(&self) -> usize
        ensures is { result ≡ length self.now }
        ensures few { result ≤ most_unacknowledged }
    {
        self.messages.len()
    }

    /// Lends the messages.
    pub fn as_slice(&self) -> &[Own]
        ensures { result.now ≡ self.now }
    {
        self.messages.as_slice()
    }

    /// Whether some message awaits its answer.
    pub fn awaits(&self) -> bool
        ensures { result ≡ some_awaits self.now }
    {
        self.messages.iter().any(|own| own.awaits())
    }

    /// Whether a message awaits its answer under this number.
    pub fn is_awaited(&self, number: u32) -> bool
        ensures { IsTrue result ↔ IsAwaited number self.now }
    {
        self.messages.iter().any(|own| own.awaits_under(number))
    }

    /// Adds a message of this name, which awaits its answer under this number. If memory runs out, the outbox is as it was.
    pub fn add(&mut self, name: Name, message: Message, number: u32) -> Result<(), AllocError>
        requires room { length self.old < most_unacknowledged }
        requires named { name ≡ name_of message }
        requires few { length message.patch.ops ≤ most_operations }
        requires interval { HasInterval message.kind }
        ensures ok { OnOk result (self.new ≡ self.old ++ record { message = message; number = Some number } ∷ []) }
        ensures err { OnErr result (self.new ≡ self.old) }
    {
        self.messages.push(Own::new(name, message, number))?;
        Ok(())
    }

    /// No message awaits its answer under this number any more.
    pub fn forget_under(&mut self, number: u32)
        ensures { self.new ≡ forgotten_under number self.old }
    {
        forget_under(&mut self.messages, number);
    }

    /// No message awaits its answer any more.
    pub fn forget_all(&mut self)
        ensures { self.new ≡ all_forgotten self.old }
    {
        forget_all(&mut self.messages);
    }

    /// Lets go the messages that await their answer under this number.
    pub fn let_go_under(&mut self, number: u32)
        ensures { self.new ≡ without_number number self.old }
    {
        self.messages.retain(|own| !own.awaits_under(number));
    }

    /// Lets go the messages of this name.
    pub fn let_go_named(&mut self, name: &Name)
        ensures { self.new ≡ without_name name.now self.old }
    {
        self.messages.retain(|own| !own.is_named(name));
    }

    /// The requests that send each message to a channel once more, in order, under the numbers after `last`.
    pub fn texts_again(
        &self,
        alloc: Global,
        channel: &Channel,
        last: u32,
    ) -> Result<Vec<Wire>, AllocError>
        requires { last + length self.now < 2 ^ 32 }
        ensures { IfOk result (λ texts. texts.items ≡ texts_again channel.now last self.now) }
    {
        texts_of(alloc, self.messages.as_slice(), channel, last)
    }

    /// Each message awaits its answer under the next number, in order. `last` is the number given out last, and then the last
    /// of these.
    pub fn number_again(&mut self, last: &mut u32)
        requires { last.old + length self.old < 2 ^ 32 }
        ensures outbox { self.new ≡ sent_again last.old self.old }
        ensures last { last.new ≡ last.old + length self.old }
    {
        number_again(&mut self.messages, last);
    }
}

/// No message awaits its answer under this number any more.
fn forget_under(messages: &mut [Own], number: u32)
    ensures { messages.new ≡ forgotten_under number messages.old }
{
    for own in messages.iter_mut() {
        own.forget_under(number);
    }
}

/// No message awaits its answer any more.
fn forget_all(messages: &mut [Own])
    ensures { messages.new ≡ all_forgotten messages.old }
{
    for own in messages.iter_mut() {
        own.forget();
    }
}

/// Each message awaits its answer under the next number.
fn number_again(messages: &mut [Own], last: &mut u32)
    requires { last.old + length messages.old < 2 ^ 32 }
    ensures messages { messages.new ≡ sent_again last.old messages.old }
    ensures last { last.new ≡ last.old + length messages.old }
{
    for own in messages.iter_mut() {
        *last += 1;
        own.number_again(*last);
    }
}

/// The requests that send each message to a channel, in order.
fn texts_of(
    alloc: Global,
    messages: &[Own],
    channel: &Channel,
    last: u32,
) -> Result<Vec<Wire>, AllocError>
    requires { last + length messages.now < 2 ^ 32 }
    ensures { IfOk result (λ texts. texts.items ≡ texts_again channel.now last messages.now) }
{
    let mut texts = Vec::new(alloc);
    let mut seq = last;
    for own in messages {
        seq += 1;
        texts.push(message_text(alloc, seq, channel, own.message())?)?;
    }
    Ok(texts)
}
