ghost use Rattle.std.specs.Prelude.{◌≡◌, ◌≤◌, length, Some, is_some, if◌then◌else◌};
ghost use Rattle.pad_message.specs.Content.{most_operations};
ghost use Rattle.pad_message.specs.Kind.{HasInterval};
ghost use Rattle.pad_message.specs.Message.{name_of};
ghost use Rattle.client_outbox.specs.Outbox.{awaits_under, same_name, forgotten};

use pad_message::Message;
use pad_text::Name;
use std::marker::Model;

/// An own message that was not acknowledged, with its name, and the number of the request that awaits its answer, if one does.
#[derive(Debug, Drop)]
pub struct Own {
    name: Name,
    message: Message,
    number: Option<u32>,
}

impl Model for Own {
    ghost use Rattle.std.specs.Prelude.{◌≡◌, ◌≤◌, length};
    ghost use Rattle.pad_message.specs.Content.{most_operations};
    ghost use Rattle.pad_message.specs.Kind.{HasInterval};
    ghost use Rattle.pad_message.specs.Message.{name_of};
    ghost use Rattle.client_outbox.specs.Outbox.{Unacknowledged};

    ghost Value = { Unacknowledged };

    ghost view = { λ own. record { message = own.message; number = own.number } };

    ghost invariant = { λ own. (own.name ≡ name_of own.message) × (length own.message.patch.ops ≤ most_operations) × HasInterval own.message.kind };
}

impl Own {
    /// A message of this name that is sent under this number.
    pub(crate) fn new(name: Name, message: Message, number: u32) -> Own
        requires named { name ≡ name_of message }
        requires few { length message.patch.ops ≤ most_operations }
        requires interval { HasInterval message.kind }
        ensures { result ≡ record { message = message; number = Some number } }
    {
        Own {
            name,
            message,
            number: Some(number),
        }
    }

    /// The message's name.
    pub fn name(&self) -> Name
        ensures { result ≡ name_of self.now.message }
    {
        let _message = &self.message;
        self.name
    }

    /// Lends the message.
    pub fn message(&self) -> &Message
        ensures is { result.now ≡ self.now.message }
        ensures few { length self.now.message.patch.ops ≤ most_operations }
        ensures interval { HasInterval self.now.message.kind }
    {
        let _name = self.name;
        &self.message
    }

    /// Whether it awaits an answer.
    pub(crate) fn awaits(&self) -> bool
        ensures { result ≡ is_some self.now.number }
    {
        self.number.is_some()
    }

    /// Whether it awaits its answer under this number.
    pub(crate) fn awaits_under(&self, number: u32) -> bool
        ensures { result ≡ awaits_under number self.now.number }
    {
        match self.number {
            Some(other) => number == other,
            None => false,
        }
    }

    /// Whether it has this name.
    pub(crate) fn is_named(&self, name: &Name) -> bool
        ensures { result ≡ same_name name.now (name_of self.now.message) }
    {
        *name == self.name
    }

    /// It awaits no answer under this number any more.
    pub(crate) fn forget_under(&mut self, number: u32)
        ensures { self.new ≡ (if awaits_under number self.old.number then forgotten self.old else self.old) }
    {
        if self.awaits_under(number) {
            self.forget();
        }
    }

    /// It awaits no answer any more.
    pub(crate) fn forget(&mut self)
        ensures { self.new ≡ forgotten self.old }
    {
        self.number = None;
    }

    /// It awaits its answer under this number from now on.
    pub(crate) fn number_again(&mut self, number: u32)
        ensures { self.new ≡ record self.old { number = Some number } }
    {
        self.number = Some(number);
    }
}
