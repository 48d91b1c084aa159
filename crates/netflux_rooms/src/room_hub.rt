ghost use Rattle.std.specs.Prelude.{◌≡◌, ℕ, [], ◌∷◌, ◌++◌, map, nat_le, ◌||◌, ◌^◌, ◌-◌, length, false, true, List, bytes_eq, nat_eq, IfOk, OnOk, Some, None, MatchBool, if◌then◌else◌};
ghost use Rattle.std.specs.Map.{lookup};
ghost use Rattle.std.specs.Option.{is_some};
ghost use Rattle.std.specs.List.{list_any};
ghost use Rattle.netflux_rooms.specs.Rooms.{Identities, Rooms, id_of, no_rooms, tell, member, welcome, opened, closed, joined, left, is_open, has_joined};
ghost use Rattle.netflux_rooms.specs.Identity.{identities_of};
ghost use Rattle.netflux_rooms.specs.Machine.{target_of, target_by, target_elsewhere, delivered, stored, asked, posted, made, Gives, HearsAsk, HearsMessage, HearsRequest, Hears, Steps};
ghost use Rattle.netflux_rooms.specs.declared.limits.TheConstants.{MOST_CONNECTIONS};
ghost use Rattle.netflux_rooms.specs.Tables.{names_at, members_at, channels_at, IsRooms, Done};
ghost use Rattle.netflux_rooms.specs.Whole.{IsWhole, CanServe, connections_of, outs_of};
ghost use Rattle.netflux_rooms.specs.Inside.Seats.{id_at};

use crate::channel_table::ChannelTable;
use crate::heard::Heard;
use crate::identity::{of_connection, of_keeper};
use crate::limits::{LONGEST_MESSAGE, MOST_CHANNELS, MOST_CONNECTIONS};
use crate::names::Names;
use crate::parting::part_all;
use crate::room_table::RoomTable;
use crate::seats::{Seat, Seats};
use crate::target::Target;
use crate::telling::{channel_text, push_each, push_one, push_others, refuse};
use netflux_codec::{
    Ask, AskRefused, Body, Channel, Id, KeeperId, Reply, Request, RequestRefused, Who, Word,
    read_ask, read_request,
};
use pad_edge::Wire;
use serve_loop::{Event, Out};
use std::alloc::{AllocError, Global};

/// Who is connected, and who joined which channel.
#[derive(Drop)]
pub struct RoomHub {
    keeper: KeeperId,
    key: [u8; 32],
    stream: u64,
    taken: u64,
    names: Names,
    seats: Seats,
    channels: ChannelTable,
    rooms: RoomTable,
}

impl RoomHub {
    /// The identity of a connection.
    fn id_of(&self, alloc: Global, number: u64) -> Result<Id, AllocError>
        ensures { IfOk result (λ id. id ≡ id_at self.now number) }
    {
        match self.seats.get(number) {
            Some(seat) => Ok(seat.id),
            None => of_connection(alloc, self.key, self.stream, 0),
        }
    }

    /// Whether no more connections are taken in.
    fn is_full(&self) -> bool
        ensures { result ≡ (nat_le MOST_CONNECTIONS (length self.now.seats.table.entries) || nat_le (2 ^ 64 - 1) self.now.taken) }
    {
        self.seats.len() >= MOST_CONNECTIONS || self.taken >= u64::MAX
    }

    /// A connection opens.
    pub(crate) fn open(&mut self, alloc: Global, number: u64) -> Result<Vec<Out>, AllocError>
        requires { is_some (lookup (nat_eq number) self.old.seats.table.entries) ≡ false }
        ensures { (identities : Identities) (rooms : Rooms) → IsRooms identities self.old rooms
            → IfOk result (λ outs. Done identities (opened identities rooms number) outs.items self.new) }
    {
        if self.is_full() {
            let mut outs = refuse(alloc, number, 0, Word::Efull, "")?;
            outs.push(Out::HangUp(number))?;
            return Ok(outs);
        }
        let serial = self.taken + 1;
        let id = of_connection(alloc, self.key, self.stream, serial)?;
        let mut outs = Vec::new(alloc);
        push_one(alloc, &mut outs, number, &Reply::Ident(id))?;
        let _digits = id.digits();
        self.names.add(id, number)?;
        self.seats.add(number, Seat { serial, id })?;
        self.taken = serial;
        Ok(outs)
    }

    /// Each member of a channel, told to a connection.
    fn push_members(
        &self,
        alloc: Global,
        outs: &mut Vec<Out>,
        number: u64,
        channel: &Channel,
    ) -> Result<(), AllocError>
        ensures { OnOk result (outs.new.items ≡ outs.old.items
            ++ map (λ (other : ℕ). tell number (member (id_at self.now) channel.now other)) (members_at self.now.rooms.rooms.entries channel.now)) }
    {
        for other in self.rooms.members(channel) {
            let id = self.id_of(alloc, *other)?;
            push_one(
                alloc,
                outs,
                number,
                &Reply::Member(Who::Member(id), *channel),
            )?;
        }
        Ok(())
    }

    /// What a new member is told, and what the earlier members are.
    fn greet(
        &self,
        alloc: Global,
        number: u64,
        seq: u32,
        channel: &Channel,
    ) -> Result<Vec<Out>, AllocError>
        ensures { IfOk result (λ outs. outs.items
            ≡ welcome self.now.keeper (id_at self.now) (members_at self.now.rooms.rooms.entries channel.now) number seq channel.now) }
    {
        let mut outs = Vec::new(alloc);
        push_one(alloc, &mut outs, number, &Reply::Joined(seq, *channel))?;
        let keeper = Who::Keeper(self.keeper);
        push_one(alloc, &mut outs, number, &Reply::Member(keeper, *channel))?;
        self.push_members(alloc, &mut outs, number, channel)?;
        let id = self.id_of(alloc, number)?;
        let own = Reply::Member(Who::Member(id), *channel);
        push_one(alloc, &mut outs, number, &own)?;
        push_each(alloc, &mut outs, self.rooms.members(channel), &own)?;
        Ok(outs)
    }

    /// A connection joins a channel.
    pub(crate) fn join(
        &mut self,
        alloc: Global,
        number: u64,
        seq: u32,
        channel: &Channel,
    ) -> Result<Vec<Out>, AllocError>
        ensures { (identities : Identities) (rooms : Rooms) → IsRooms identities self.old rooms
            → IfOk result (λ outs. Done identities (joined identities rooms number seq channel.now) outs.items self.new) }
    {
        if self.rooms.contains(channel, number) {
            return refuse(alloc, number, seq, Word::Ejoined, channel.as_str());
        }
        if self.channels.count(number) >= MOST_CHANNELS {
            return refuse(alloc, number, seq, Word::Efull, channel.as_str());
        }
        let _digits = channel.digits();
        let outs = self.greet(alloc, number, seq, channel)?;
        self.rooms.join(alloc, channel, number)?;
        self.channels.join(alloc, number, channel)?;
        Ok(outs)
    }

    /// A connection leaves a channel.
    pub(crate) fn leave(
        &mut self,
        alloc: Global,
        number: u64,
        seq: u32,
        channel: &Channel,
        reason: Wire,
    ) -> Result<Vec<Out>, AllocError>
        ensures { (identities : Identities) (rooms : Rooms) → IsRooms identities self.old rooms
            → IfOk result (λ outs. Done identities (left identities rooms number seq channel.now reason) outs.items self.new) }
    {
        if !self.rooms.contains(channel, number) {
            return refuse(alloc, number, seq, Word::Enoent, channel.as_str());
        }
        let mut outs = Vec::new(alloc);
        push_one(alloc, &mut outs, number, &Reply::Ack(seq))?;
        let id = self.id_of(alloc, number)?;
        let gone = Reply::Gone(id, *channel, reason);
        push_others(alloc, &mut outs, self.rooms.members(channel), number, &gone)?;
        self.rooms.leave(alloc, channel, number)?;
        self.channels.leave(alloc, number, channel)?;
        Ok(outs)
    }

    /// A connection closes: it is taken out of each of its channels in turn.
    pub(crate) fn close(&mut self, alloc: Global, number: u64) -> Result<Vec<Out>, AllocError>
        requires { is_some (lookup (nat_eq number) self.old.seats.table.entries) ≡ true }
        ensures { (identities : Identities) (rooms : Rooms) → IsRooms identities self.old rooms
            → IfOk result (λ outs. Done identities (closed identities rooms number) outs.items self.new) }
    {
        let id = self.id_of(alloc, number)?;
        self.names.remove(&id);
        let channels = self.channels.take(alloc, number);
        let outs = part_all(alloc, &mut self.rooms, number, id, channels.as_slice())?;
        self.seats.remove(number);
        Ok(outs)
    }

    /// No connections.
    pub fn new(alloc: Global, key: [u8; 32], stream: u64) -> Result<RoomHub, AllocError>
        ensures rooms { IfOk result (λ hub. IsRooms (identities_of key stream) hub no_rooms) }
        ensures whole { IfOk result (λ hub. IsWhole hub) }
        ensures nobody { IfOk result (λ hub. connections_of hub ≡ []) }
    {
        Ok(RoomHub {
            keeper: of_keeper(alloc, key, stream)?,
            key,
            stream,
            taken: 0,
            names: Names::new(alloc),
            seats: Seats::new(alloc),
            channels: ChannelTable::new(alloc),
            rooms: RoomTable::new(alloc),
        })
    }

    /// The channel of this name that a connection has joined.
    fn joined_channel(&self, number: u64, text: &str) -> Option<Channel>
        ensures { (identities : Identities) (rooms : Rooms) → IsRooms identities self.now rooms
            → result ≡ (if has_joined rooms number text.now then Some text.now else None) }
    {
        match Channel::from_hex(text) {
            None => None,
            Some(channel) => {
                if self.rooms.contains(&channel, number) {
                    Some(channel)
                } else {
                    None
                }
            }
        }
    }

    /// Whom a message is for.
    fn target(&self, number: u64, text: &str) -> Target
        ensures { (identities : Identities) (rooms : Rooms) → IsRooms identities self.now rooms
            → result ≡ target_of identities rooms number text.now }
    {
        match self.joined_channel(number, text) {
            Some(channel) => Target::Channel(channel),
            None => self.elsewhere(text),
        }
    }

    /// Whom a message is for that is for no channel.
    fn elsewhere(&self, text: &str) -> Target
        ensures { (identities : Identities) (rooms : Rooms) → IsRooms identities self.now rooms
            → result ≡ target_elsewhere identities rooms text.now }
    {
        if text == self.keeper.as_str() {
            return Target::Keeper;
        }
        match Id::from_hex(text) {
            None => Target::Nobody,
            Some(id) => self.connection_of(&id),
        }
    }

    /// The connection of an identity.
    fn connection_of(&self, id: &Id) -> Target
        ensures { result ≡ target_by (names_at self.now.names.ids.entries id.now) }
    {
        match self.names.get(id) {
            Some(other) => Target::Connection(other),
            None => Target::Nobody,
        }
    }

    /// A message to a connection.
    fn deliver(
        &self,
        alloc: Global,
        number: u64,
        seq: u32,
        other: u64,
        to: Wire,
        content: Wire,
    ) -> Result<Vec<Out>, AllocError>
        ensures { (identities : Identities) (rooms : Rooms) → IsRooms identities self.now rooms
            → IfOk result (λ outs. outs.items ≡ delivered identities rooms number seq other to content) }
    {
        if content.as_str().len() > LONGEST_MESSAGE {
            return refuse(alloc, number, seq, Word::Etoobig, to.as_str());
        }
        let mut outs = Vec::new(alloc);
        push_one(alloc, &mut outs, number, &Reply::Ack(seq))?;
        let id = self.id_of(alloc, number)?;
        push_one(alloc, &mut outs, other, &Reply::Msg(id, to, content))?;
        Ok(outs)
    }

    /// A message to a channel.
    fn store(
        &self,
        alloc: Global,
        number: u64,
        seq: u32,
        channel: Channel,
        to: Wire,
        content: Wire,
    ) -> Result<Heard, AllocError>
        ensures { (identities : Identities) (rooms : Rooms) → IsRooms identities self.now rooms
            → IfOk result (λ heard. Gives identities rooms heard self.now (stored rooms number seq channel to content)) }
    {
        if content.as_str().len() > LONGEST_MESSAGE {
            let outs = refuse(alloc, number, seq, Word::Etoobig, to.as_str())?;
            return Ok(Heard::Done(outs));
        }
        Ok(Heard::Store(number, seq, channel, content))
    }

    /// A question to the keeper.
    fn ask(
        &self,
        alloc: Global,
        number: u64,
        seq: u32,
        to: Wire,
        content: Wire,
        ask: Ask,
    ) -> Result<Heard, AllocError>
        ensures { (identities : Identities) (rooms : Rooms) → IsRooms identities self.now rooms
            → IfOk result (λ heard. Gives identities rooms heard self.now (asked rooms number seq to content ask)) }
    {
        if content.as_str().len() > LONGEST_MESSAGE {
            let outs = refuse(alloc, number, seq, Word::Etoobig, to.as_str())?;
            return Ok(Heard::Done(outs));
        }
        Ok(Heard::Ask(number, seq, ask))
    }

    /// A message to the keeper.
    fn hear_ask(
        &self,
        alloc: Global,
        number: u64,
        seq: u32,
        to: Wire,
        content: Wire,
    ) -> Result<Heard, AllocError>
        ensures { (identities : Identities) (rooms : Rooms) → IsRooms identities self.now rooms
            → IfOk result (λ heard. HearsAsk rooms number seq to content (Gives identities rooms heard self.now)) }
    {
        match read_ask(alloc, content.as_str()) {
            Ok(ask) => self.ask(alloc, number, seq, to, content, ask),
            Err(AskRefused::Invalid) => {
                let outs = refuse(alloc, number, seq, Word::Einval, "")?;
                Ok(Heard::Done(outs))
            }
            Err(AskRefused::NoMemory(refused)) => Err(refused),
        }
    }

    /// A message.
    fn pass_on(
        &self,
        alloc: Global,
        number: u64,
        seq: u32,
        to: Wire,
        content: Wire,
    ) -> Result<Heard, AllocError>
        ensures { (identities : Identities) (rooms : Rooms) → IsRooms identities self.now rooms
            → IfOk result (λ heard. HearsMessage identities rooms number seq to content (target_of identities rooms number to) (Gives identities rooms heard self.now)) }
    {
        match self.target(number, to.as_str()) {
            Target::Channel(channel) => self.store(alloc, number, seq, channel, to, content),
            Target::Keeper => self.hear_ask(alloc, number, seq, to, content),
            Target::Connection(other) => {
                let outs = self.deliver(alloc, number, seq, other, to, content)?;
                Ok(Heard::Done(outs))
            }
            Target::Nobody => {
                let outs = refuse(alloc, number, seq, Word::Enoent, to.as_str())?;
                Ok(Heard::Done(outs))
            }
        }
    }

    /// A request.
    fn take_request(
        &mut self,
        alloc: Global,
        number: u64,
        request: Request,
    ) -> Result<Heard, AllocError>
        ensures { (identities : Identities) (rooms : Rooms) → IsRooms identities self.old rooms
            → IfOk result (λ heard. HearsRequest identities rooms number request.seq request.body (Gives identities rooms heard self.new)) }
    {
        let Request { seq, body } = request;
        match body {
            Body::Join(channel) => {
                let outs = self.join(alloc, number, seq, &channel)?;
                Ok(Heard::Done(outs))
            }
            Body::Leave(channel, reason) => {
                let outs = self.leave(alloc, number, seq, &channel, reason)?;
                Ok(Heard::Done(outs))
            }
            Body::Msg(to, content) => self.pass_on(alloc, number, seq, to, content),
            Body::Ping => {
                let mut outs = Vec::new(alloc);
                push_one(alloc, &mut outs, number, &Reply::Ack(seq))?;
                Ok(Heard::Done(outs))
            }
        }
    }

    /// A text of an open connection.
    fn hear(&mut self, alloc: Global, number: u64, text: &str) -> Result<Heard, AllocError>
        ensures { (identities : Identities) (rooms : Rooms) → IsRooms identities self.old rooms
            → IfOk result (λ heard. Hears identities rooms number text.now (Gives identities rooms heard self.new)) }
    {
        match read_request(alloc, text) {
            Ok(request) => self.take_request(alloc, number, request),
            Err(RequestRefused::Invalid(seq)) => {
                let outs = refuse(alloc, number, seq, Word::Einval, "")?;
                Ok(Heard::Done(outs))
            }
            Err(RequestRefused::NoMemory(refused)) => Err(refused),
        }
    }

    /// A connection opens, if it is not open.
    fn take_in(&mut self, alloc: Global, number: u64) -> Result<Vec<Out>, AllocError>
        ensures { (identities : Identities) (rooms : Rooms) → IsRooms identities self.old rooms
            → IfOk result (λ outs. Done identities (if is_open rooms number then ([], rooms) else opened identities rooms number) outs.items self.new) }
    {
        if self.seats.contains(number) {
            return Ok(Vec::new(alloc));
        }
        self.open(alloc, number)
    }

    /// A connection closes, if it is open.
    fn let_go(&mut self, alloc: Global, number: u64) -> Result<Vec<Out>, AllocError>
        ensures { (identities : Identities) (rooms : Rooms) → IsRooms identities self.old rooms
            → IfOk result (λ outs. Done identities (if is_open rooms number then closed identities rooms number else ([], rooms)) outs.items self.new) }
    {
        if self.seats.contains(number) {
            return self.close(alloc, number);
        }
        Ok(Vec::new(alloc))
    }

    /// A text comes.
    fn listen(&mut self, alloc: Global, number: u64, text: &str) -> Result<Heard, AllocError>
        ensures { (identities : Identities) (rooms : Rooms) → IsRooms identities self.old rooms
            → IfOk result (λ heard. MatchBool (is_open rooms number) (Hears identities rooms number text.now (Gives identities rooms heard self.new))
            (Gives identities rooms heard self.new (made ([], rooms)))) }
    {
        if self.seats.contains(number) {
            return self.hear(alloc, number, text);
        }
        Ok(Heard::Done(Vec::new(alloc)))
    }

    /// One event.
    fn take_event(&mut self, alloc: Global, event: Event) -> Result<Heard, AllocError>
        ensures { (identities : Identities) (rooms : Rooms) → IsRooms identities self.old rooms
            → IfOk result (λ heard. Steps identities rooms event (Gives identities rooms heard self.new)) }
    {
        match event {
            Event::Opened(number) => {
                let outs = self.take_in(alloc, number)?;
                Ok(Heard::Done(outs))
            }
            Event::Text(number, text) => {
                let heard = self.listen(alloc, number, text.as_str())?;
                Ok(heard)
            }
            Event::Closed(number) => {
                let outs = self.let_go(alloc, number)?;
                Ok(Heard::Done(outs))
            }
        }
    }

    /// One event: outputs, or something for the keeper. After want of memory the hub may only be dropped.
    pub fn step(&mut self, alloc: Global, event: Event) -> Result<Heard, AllocError>
        ensures step { (identities : Identities) (rooms : Rooms) → IsRooms identities self.old rooms
            → IfOk result (λ heard. Steps identities rooms event (Gives identities rooms heard self.new)) }
        ensures served { IsWhole self.old → IfOk result (λ heard. CanServe event self.old self.new (outs_of heard)) }
    {
        let heard = self.take_event(alloc, event)?;
        Ok(heard)
    }

    /// What is told of a message to a channel that the keeper has stored: the acknowledgement, and the message to each other member. The
    /// hub stays as it is, and at an `Err` too.
    pub fn post(
        &self,
        alloc: Global,
        number: u64,
        seq: u32,
        channel: &Channel,
        content: Wire,
    ) -> Result<Vec<Out>, AllocError>
        ensures { (identities : Identities) (rooms : Rooms) → IsRooms identities self.now rooms
            → IfOk result (λ outs. outs.items ≡ posted identities rooms number seq channel.now content) }
    {
        let mut outs = Vec::new(alloc);
        push_one(alloc, &mut outs, number, &Reply::Ack(seq))?;
        let id = self.id_of(alloc, number)?;
        let to = channel_text(alloc, channel)?;
        let message = Reply::Msg(id, to, content);
        push_others(
            alloc,
            &mut outs,
            self.rooms.members(channel),
            number,
            &message,
        )?;
        Ok(outs)
    }

    /// The identity of an open connection.
    pub fn identity_of(&self, alloc: Global, number: u64) -> Result<Id, AllocError>
        ensures { (identities : Identities) (rooms : Rooms) → IsRooms identities self.now rooms
            → IfOk result (λ id. id ≡ id_of identities rooms number) }
    {
        self.id_of(alloc, number)
    }

    /// The keeper's identity.
    pub fn keeper(&self) -> KeeperId
        ensures { result ≡ self.now.keeper }
    {
        self.keeper
    }
}
