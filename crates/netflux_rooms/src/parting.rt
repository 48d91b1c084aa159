ghost use Rattle.std.specs.Prelude.{◌≡◌, ℕ, [], ◌∷◌, ◌++◌, List, bytes_eq, true, false, codes, IfOk, OnOk};
ghost use Rattle.std.specs.List.{list_any};
ghost use Rattle.netflux_codec.specs.declared.reply.Reply.TheVariants as reply;
ghost use Rattle.netflux_rooms.specs.Rooms.{tell_each, but, goodbyes};
ghost use Rattle.netflux_rooms.specs.Tables.{members_at};

use crate::room_table::RoomTable;
use crate::telling::push_others;
use netflux_codec::{Channel, Id, Reply};
use pad_edge::Wire;
use serve_loop::Out;
use std::alloc::{AllocError, Global};

/// A closed connection is taken out of a channel, and the other members are told.
fn part(
    alloc: Global,
    rooms: &mut RoomTable,
    outs: &mut Vec<Out>,
    number: u64,
    id: Id,
    channel: &Channel,
) -> Result<(), AllocError>
    ensures outs { OnOk result (outs.new.items ≡ outs.old.items
        ++ tell_each (but number (members_at rooms.old.rooms.entries channel.now)) (reply.Gone id channel.now (codes "Quit"))) }
    ensures here { OnOk result (members_at rooms.new.rooms.entries channel.now
        ≡ but number (members_at rooms.old.rooms.entries channel.now)) }
    ensures apart { OnOk result ((other : List ℕ) → bytes_eq channel.now other ≡ false
        → members_at rooms.new.rooms.entries other ≡ members_at rooms.old.rooms.entries other) }
{
    let quit = Wire::new(String::from_str(alloc, "Quit")?);
    let gone = Reply::Gone(id, *channel, quit);
    push_others(alloc, outs, rooms.members(channel), number, &gone)?;
    rooms.leave(alloc, channel, number)
}

/// A closed connection is taken out of these channels in turn.
pub(crate) fn part_all(
    alloc: Global,
    rooms: &mut RoomTable,
    number: u64,
    id: Id,
    channels: &[Channel],
) -> Result<Vec<Out>, AllocError>
    ensures outs { IfOk result (λ outs. outs.items ≡ goodbyes (members_at rooms.old.rooms.entries) id number channels.now) }
    ensures parted { OnOk result ((channel : List ℕ) → list_any (bytes_eq channel) channels.now ≡ true
        → members_at rooms.new.rooms.entries channel ≡ but number (members_at rooms.old.rooms.entries channel)) }
    ensures apart { OnOk result ((channel : List ℕ) → list_any (bytes_eq channel) channels.now ≡ false
        → members_at rooms.new.rooms.entries channel ≡ members_at rooms.old.rooms.entries channel) }
{
    let mut outs = Vec::new(alloc);
    for channel in channels {
        part(alloc, rooms, &mut outs, number, id, channel)?;
    }
    Ok(outs)
}
