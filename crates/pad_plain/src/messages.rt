ghost use Rattle.std.specs.Prelude.{◌≡◌, ◌≤◌, [], ◌∷◌, ◌++◌, length, map, take, OnOk, OnErr};
ghost use Rattle.pad_message.specs.Content.{most_operations};
ghost use Rattle.pad_message.specs.Kind.{HasInterval};

use pad_message::Message;
use pad_model::Base;
use pad_text::Name;
use std::alloc::{AllocError, Global};
use std::collections::BTreeMap;
use std::marker::Model;

/// Messages received, in the order in which they came. Contracts see the list.
#[derive(Drop)]
pub struct Messages {
    items: Vec<Message>,
    names: Vec<Name>,
    places: BTreeMap<Name, usize>,
}

impl Model for Messages {
    ghost use Rattle.std.specs.Prelude.{List};
    ghost use Rattle.pad_message.specs.declared.message.Message.{Message};

    ghost Value = { List Message };

    ghost use Rattle.pad_plain.specs.Inside.Table.{HasNames};

    ghost view = { λ messages. messages.items.items };

    ghost invariant = { HasNames };
}

impl Messages {
    ghost use Rattle.pad_message.specs.Message.{name_of};
    ghost use Rattle.pad_list.specs.Number.{IsNumberOf};
    ghost use Rattle.pad_model.specs.Count.{IsKnown};
    ghost use Rattle.pad_plain.specs.Messages.{IsPlaceOf};
    ghost use Rattle.pad_plain.specs.Inside.Table.{IsTableOf};

    /// No messages.
    pub fn new(alloc: Global) -> Messages
        ensures { result ≡ [] }
    {
        Messages {
            items: Vec::new(alloc),
            names: Vec::new(alloc),
            places: BTreeMap::new(alloc),
        }
    }

    /// Lends the messages.
    pub fn as_slice(&self) -> &[Message]
        ensures { result.now ≡ self.now }
    {
        self.items.as_slice()
    }

    /// Adds a message at the end. It is unchanged if there is no memory.
    pub fn push(&mut self, alloc: Global, message: Message) -> Result<(), AllocError>
        requires few { length message.patch.ops ≤ most_operations }
        requires interval { HasInterval message.kind }
        ensures ok { OnOk result (self.new ≡ self.old ++ message ∷ []) }
        ensures err { OnErr result (self.new ≡ self.old) }
    {
        let name = message.name(alloc)?;
        self.push_named(message, name)
    }

    /// Adds a message at the end, whose name the caller has. It is unchanged if there is no memory.
    pub fn push_named(&mut self, message: Message, name: Name) -> Result<(), AllocError>
        requires { name ≡ name_of message }
        ensures ok { OnOk result (self.new ≡ self.old ++ message ∷ []) }
        ensures err { OnErr result (self.new ≡ self.old) }
    {
        let place = self.items.as_slice().len();
        let was_received = self.places.contains_key(&name);
        self.items.push(message)?;
        if self.names.push(name).is_err() {
            let _ = self.items.pop();
            return Err(AllocError);
        }
        if was_received {
            return Ok(());
        }
        match self.places.insert(name, place) {
            Ok(_) => Ok(()),
            Err(_) => {
                let _ = self.names.pop();
                let _ = self.items.pop();
                Err(AllocError)
            }
        }
    }

    /// How many different names they have, the base's not counted.
    pub fn known(&self, base: &Base) -> usize
        ensures { IsNumberOf (IsKnown base.now self.now) result }
    {
        let names = self.places.len();
        if self.places.contains_key(&base.name) {
            names - 1
        } else {
            names
        }
    }

    /// The first place of a message with this name. None if no message has it.
    pub fn place_of(&self, name: &Name) -> Option<usize>
        ensures { IsPlaceOf self.now name.now result }
    {
        self.places.get(name).copied()
    }

    /// Lends the first of the messages.
    pub(crate) fn first(&self, count: usize) -> &[Message]
        requires { count ≤ length self.now }
        ensures { result.now ≡ take count self.now }
    {
        &self.items.as_slice()[..count]
    }

    /// Lends the names of the first messages.
    pub(crate) fn names(&self, count: usize) -> &[Name]
        requires { count ≤ length self.now }
        ensures { result.now ≡ map name_of (take count self.now) }
    {
        &self.names.as_slice()[..count]
    }

    /// The first places of messages, one for each name.
    pub(crate) fn places(&self) -> &BTreeMap<Name, usize>
        ensures { IsTableOf self.now result.now }
    {
        &self.places
    }
}
