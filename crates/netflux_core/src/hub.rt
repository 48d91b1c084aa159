ghost use Rattle.std.specs.Prelude.{◌≡◌, ◌≤◌, ◌⊎◌, ◌+◌, ◌*◌, ◌++◌, ◌∷◌, [], ℕ, List, length, IfOk, OnOk, OnErr};
ghost use Rattle.pad_edge.specs.Count.{Rose};
ghost use Rattle.disk_volume.specs.Moments.{Grew};
ghost use Rattle.keeper_table.specs.declared.entry.Entry.{Entry};
ghost use Rattle.netflux_codec.specs.declared.reply.Reply.{Reply};
ghost use Rattle.netflux_codec.specs.declared.reply.Reply.TheVariants.{Ack};
ghost use Rattle.netflux_rooms.specs.declared.limits.TheConstants.{LONGEST_MESSAGE};
ghost use Rattle.netflux_rooms.specs.Identity.{identities_of};
ghost use Rattle.netflux_rooms.specs.Machine.{stores, asks, posted, Steps};
ghost use Rattle.netflux_rooms.specs.Rooms.{Identities, Rooms, no_rooms, tell};
ghost use Rattle.netflux_rooms.specs.Tables.{IsRooms};
ghost use Rattle.netflux_rooms.specs.Whole.{IsWhole, CanServe};
ghost use Rattle.serve_loop.specs.declared.out.Out.{Out};
ghost use Rattle.netflux_core.specs.Channels.{Channels};
ghost use Rattle.netflux_core.specs.Histories.{channel_of, tell_entries};
ghost use Rattle.netflux_core.specs.Inside.Ends.{Ends};
ghost use Rattle.netflux_core.specs.Machine.{ServeState, Step, StandsFor, BreaksBy, Breaks, Costs, IsRefused, rooms_after};
ghost use Rattle.netflux_core.specs.Runs.{Runs, IsOwned};
ghost use Rattle.netflux_core.specs.Words.{Refuses, IsStoreError, HasStoreError};

use crate::history::{channel_in, read_history};
use crate::keep::Keep;
use disk_volume::Volume;
use keeper_channel::KeeperRefused;
use netflux_codec::{Ask, Channel, Word};
use netflux_rooms::{Heard, RoomHub, refuse};
use pad_edge::Wire;
use serve_loop::{Event, Out, Outs};
use std::alloc::{AllocError, Global};

/// Who is connected, and who joined which channel, before a history keeper.
#[derive(Drop)]
pub struct Hub {
    pub(crate) rooms: RoomHub,
}

/// The error for a refusal of the keeper, to the connection that asked.
pub(crate) fn refused(
    alloc: Global,
    number: u64,
    seq: u32,
    why: KeeperRefused,
    about: &str,
) -> Result<Vec<Out>, AllocError>
    ensures { IfOk result (λ outs. Refuses number seq about.now why outs.items) }
{
    let word = match why {
        KeeperRefused::Full => Word::Efull,
        KeeperRefused::Store => Word::Estore,
        KeeperRefused::Damaged(_) => Word::Edamaged,
        KeeperRefused::NoMemory(error) => return Err(error),
    };
    refuse(alloc, number, seq, word, about)
}

impl Hub {
    /// Nobody is connected. Identities are those of the key, 32 bytes, and the stream.
    pub fn new(alloc: Global, key: [u8; 32], stream: u64) -> Result<Hub, AllocError>
        ensures rooms { IfOk result (λ hub. IsRooms (identities_of key stream) hub.rooms no_rooms) }
        ensures whole { IfOk result (λ hub. IsWhole hub.rooms) }
    {
        Ok(Hub {
            rooms: RoomHub::new(alloc, key, stream)?,
        })
    }

    /// A message to a channel.
    fn store<V: Volume, K: Keep>(
        &self,
        alloc: Global,
        keeper: &mut K,
        volume: &mut V,
        moment: u64,
        number: u64,
        seq: u32,
        channel: &Channel,
        content: Wire,
    ) -> Result<Vec<Out>, AllocError>
        requires short { length content ≤ LONGEST_MESSAGE }
        requires sound { K.is_sound keeper.old }
        requires tie { V.tells → (channels : Channels) × K.keeps keeper.old channels (V.disk volume.old) }
        ensures sound { K.is_sound keeper.new }
        ensures tie { V.tells → (channels : Channels) × K.keeps keeper.new channels (V.disk volume.new) }
        ensures ends { V.tells → (identities : Identities) (first : ℕ) (state : ServeState)
            → StandsFor (K.keeps keeper.old) identities self.now.rooms (V.disk volume.old) first (V.faults volume.old) state
            → IfOk result (λ outs. Ends K.logs (K.keeps keeper.new) identities self.now.rooms (V.disk volume.new) first (V.faults volume.new)
            state moment (stores number seq channel.now content) outs.items) }
        ensures broken { V.tells → (identities : Identities) (first : ℕ) (state : ServeState)
            → StandsFor (K.keeps keeper.old) identities self.now.rooms (V.disk volume.old) first (V.faults volume.old) state
            → OnErr result ((V.disk volume.new ≡ V.disk volume.old) ⊎ BreaksBy K.logs identities state moment (V.disk volume.new) (stores number seq channel.now content)) }
        ensures costs { (identities : Identities) (rooms : Rooms) → IsRooms identities self.now.rooms rooms
            → IfOk result (λ outs. (outs.items ≡ posted identities rooms number seq channel.now content)
            ⊎ IsRefused (Rose (V.faults volume.old) (V.faults volume.new)) number seq channel.now outs.items) }
        ensures files { V.tells → Grew (IsOwned K.logs.owns) (V.disk volume.old) (V.disk volume.new) }
        ensures follows { V.follows volume.old volume.new }
        ensures kept { IfOk result (λ outs. IsStoreError outs.items ⊎ (V.faults volume.new ≡ V.faults volume.old)) }
        ensures later { V.faults volume.old ≤ V.faults volume.new }
    {
        let _digits = channel.digits();
        let sender = self.rooms.identity_of(alloc, number)?;
        match keeper.store_entry(alloc, volume, channel, moment, &sender, &content) {
            Ok(_) => self.rooms.post(alloc, number, seq, channel, content),
            Err(why) => refused(alloc, number, seq, why, channel.as_str()),
        }
    }

    /// A question to the keeper.
    fn ask<V: Volume, K: Keep>(
        &self,
        alloc: Global,
        keeper: &mut K,
        volume: &mut V,
        moment: u64,
        number: u64,
        seq: u32,
        ask: &Ask,
    ) -> Result<Vec<Out>, AllocError>
        requires sound { K.is_sound keeper.old }
        requires tie { V.tells → (channels : Channels) × K.keeps keeper.old channels (V.disk volume.old) }
        ensures sound { K.is_sound keeper.new }
        ensures tie { V.tells → (channels : Channels) × K.keeps keeper.new channels (V.disk volume.new) }
        ensures ends { V.tells → (identities : Identities) (first : ℕ) (state : ServeState)
            → StandsFor (K.keeps keeper.old) identities self.now.rooms (V.disk volume.old) first (V.faults volume.old) state
            → IfOk result (λ outs. Ends K.logs (K.keeps keeper.new) identities self.now.rooms (V.disk volume.new) first (V.faults volume.new)
            state moment (asks number seq ask.now) outs.items) }
        ensures broken { V.tells → (identities : Identities) (first : ℕ) (state : ServeState)
            → StandsFor (K.keeps keeper.old) identities self.now.rooms (V.disk volume.old) first (V.faults volume.old) state
            → OnErr result (BreaksBy K.logs identities state moment (V.disk volume.new) (asks number seq ask.now)) }
        ensures costs { (identities : Identities) (rooms : Rooms) → IsRooms identities self.now.rooms rooms
            → IfOk result (λ outs. ((entries : List Entry) × (end : Reply) × (outs.items ≡ tell number (Ack seq) ∷ (tell_entries identities.keeper number ask.now entries ++ tell number end ∷ []))
            × (K.is_loaded keeper.old (channel_of ask.now) → V.clock volume.new ≤ V.clock volume.old + 2 * length entries))
            ⊎ IsRefused (Rose (V.faults volume.old) (V.faults volume.new)) number seq identities.keeper outs.items) }
        ensures files { V.tells → Grew (IsOwned K.logs.owns) (V.disk volume.old) (V.disk volume.new) }
        ensures follows { V.follows volume.old volume.new }
        ensures kept { IfOk result (λ outs. IsStoreError outs.items ⊎ (V.faults volume.new ≡ V.faults volume.old)) }
        ensures later { V.faults volume.old ≤ V.faults volume.new }
    {
        let channel = channel_in(ask);
        let _digits = channel.digits();
        let identity = self.rooms.keeper();
        match read_history(alloc, keeper, volume, &identity, number, seq, ask) {
            Ok(outs) => Ok(outs),
            Err(why) => refused(alloc, number, seq, why, identity.as_str()),
        }
    }

    /// One event, at a moment in seconds since 1970. After want of memory hub and keeper may only be dropped.
    pub fn step<V: Volume, K: Keep>(
        &mut self,
        alloc: Global,
        keeper: &mut K,
        volume: &mut V,
        moment: u64,
        event: Event,
    ) -> Result<Outs, AllocError>
        requires whole { IsWhole self.old.rooms }
        requires sound { K.is_sound keeper.old }
        requires tie { V.tells → (channels : Channels) × K.keeps keeper.old channels (V.disk volume.old) }

        // Where the volume tells: the step of the serve machine, and what is left where memory ran out.
        ensures step { V.tells → (identities : Identities) (first : ℕ) (state : ServeState)
            → StandsFor (K.keeps keeper.old) identities self.old.rooms (V.disk volume.old) first (V.faults volume.old) state
            → IfOk result (λ outs. (next : ServeState) × Step K.logs identities state moment event outs next
            × StandsFor (K.keeps keeper.new) identities self.new.rooms (V.disk volume.new) first (V.faults volume.new) next) }
        ensures broken { V.tells → (identities : Identities) (first : ℕ) (state : ServeState)
            → StandsFor (K.keeps keeper.old) identities self.old.rooms (V.disk volume.old) first (V.faults volume.old) state
            → OnErr result (Breaks K.logs identities state moment event (V.disk volume.new)) }
        ensures tie { V.tells → OnOk result ((channels : Channels) × K.keeps keeper.new channels (V.disk volume.new)) }
        ensures files { V.tells → Grew (IsOwned K.logs.owns) (V.disk volume.old) (V.disk volume.new) }

        // Whether it tells or not.
        ensures costs { (identities : Identities) (rooms : Rooms) → IsRooms identities self.old.rooms rooms
            → IfOk result (λ outs. Steps identities rooms event (Costs (K.is_loaded keeper.old) (Rose (V.faults volume.old) (V.faults volume.new)) identities rooms (V.clock volume.old) (V.clock volume.new) outs)) }
        ensures rooms { (identities : Identities) (rooms : Rooms) → IsRooms identities self.old.rooms rooms
            → IfOk result (λ outs. Steps identities rooms event (λ answer. IsRooms identities self.new.rooms (rooms_after rooms answer))) }
        ensures served { IfOk result (λ outs. CanServe event self.old.rooms self.new.rooms outs) }
        ensures sound { OnOk result (K.is_sound keeper.new) }
        ensures follows { V.follows volume.old volume.new }
        ensures kept { IfOk result (λ outs. IsStoreError outs ⊎ (V.faults volume.new ≡ V.faults volume.old)) }
        ensures later { V.faults volume.old ≤ V.faults volume.new }
    {
        K::crashes_leave_what_is_held();
        let heard = self.rooms.step(alloc, event)?;
        match heard {
            Heard::Done(outs) => Ok(Outs::new(outs)),
            Heard::Store(number, seq, channel, content) => {
                let outs = self.store(
                    alloc, keeper, volume, moment, number, seq, &channel, content,
                )?;
                Ok(Outs::new(outs))
            }
            Heard::Ask(number, seq, ask) => {
                let outs = self.ask(alloc, keeper, volume, moment, number, seq, &ask)?;
                Ok(Outs::new(outs))
            }
        }
    }

    /// Some events, each with its moment, one after another, and the outputs of each.
    pub fn run<V: Volume, K: Keep>(
        &mut self,
        alloc: Global,
        keeper: &mut K,
        volume: &mut V,
        events: Vec<(u64, Event)>,
    ) -> Result<Vec<Outs>, AllocError>
        requires whole { IsWhole self.old.rooms }
        requires sound { K.is_sound keeper.old }
        requires tie { V.tells → (channels : Channels) × K.keeps keeper.old channels (V.disk volume.old) }
        ensures runs { V.tells → (identities : Identities) (first : ℕ) (state : ServeState)
            → StandsFor (K.keeps keeper.old) identities self.old.rooms (V.disk volume.old) first (V.faults volume.old) state
            → IfOk result (λ outputs. (next : ServeState) × Runs K.logs identities state events.items outputs.items next
            × StandsFor (K.keeps keeper.new) identities self.new.rooms (V.disk volume.new) first (V.faults volume.new) next) }
        ensures files { V.tells → Grew (IsOwned K.logs.owns) (V.disk volume.old) (V.disk volume.new) }
        ensures whole { OnOk result (IsWhole self.new.rooms) }
        ensures sound { OnOk result (K.is_sound keeper.new) }
        ensures follows { V.follows volume.old volume.new }
        ensures kept { IfOk result (λ outputs. HasStoreError outputs.items ⊎ (V.faults volume.new ≡ V.faults volume.old)) }
        ensures later { V.faults volume.old ≤ V.faults volume.new }
    {
        let mut outputs = Vec::new(alloc);
        for (moment, event) in events {
            let outs = self.step(alloc, keeper, volume, moment, event)?;
            outputs.push(outs)?;
        }
        Ok(outputs)
    }
}
