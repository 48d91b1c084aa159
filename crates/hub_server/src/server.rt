ghost use Rattle.std.specs.Prelude.{◌≡◌, ◌≤◌, ℕ, List, IfOk, OnOk, OnErr};
ghost use Rattle.netflux_rooms.specs.Identity.{identities_of};
ghost use Rattle.netflux_rooms.specs.Rooms.{no_rooms};
ghost use Rattle.netflux_rooms.specs.Tables.{IsRooms};
ghost use Rattle.netflux_rooms.specs.Whole.{IsWhole, connections_of};
ghost use Rattle.netflux_core.specs.Channels.{Channels};
ghost use Rattle.netflux_core.specs.Machine.{Breaks};
ghost use Rattle.serve_loop.specs.Connected.{ClosesAlone};
ghost use Rattle.serve_loop.specs.Hangs.{HangsBehind};
ghost use Rattle.serve_loop.specs.declared.event.Event.{Event};
ghost use Rattle.serve_loop.specs.declared.out.Out.{Out};
ghost use Rattle.hub_server.specs.Serving.{Serving, Serves, StandsIn, LeavesBehind};
ghost use Rattle.hub_server.specs.Lemmas.Leaving.{leaves_none, leaves_more};

use disk_volume::Volume;
use netflux_core::{Hub, Keep};
use serve_loop::{Event, Machine, Outs};
use std::alloc::{AllocError, Global};

/// A hub with its keeper, for the loop that serves a port.
#[derive(Drop)]
pub struct Server<K> {
    hub: Hub,
    keeper: K,
}

impl<K: Keep + Drop> Server<K> {
    /// A hub to which nobody is connected, before this keeper. Identities are those of the key, 32 bytes.
    pub fn new(alloc: Global, key: [u8; 32], keeper: K) -> Result<Server<K>, AllocError>
        ensures rooms { IfOk result (λ server. IsRooms (identities_of key 0) server.hub.rooms no_rooms) }
        ensures whole { IfOk result (λ server. IsWhole server.hub.rooms) }
        ensures keeper { IfOk result (λ server. server.keeper ≡ keeper) }
    {
        let hub = Hub::new(alloc, key, 0)?;
        Ok(Server { hub, keeper })
    }
}

impl<V: Volume, K: Keep> Machine<V> for Server<K> {
    ghost tells = { V.tells };

    ghost State = { Serving };

    ghost Step = { λ before moment event outs now. Serves K.logs before moment event outs now };

    ghost stands = { λ server volume serving. StandsIn (K.is_sound server.keeper) (K.keeps server.keeper) server.hub.rooms (V.disk volume) (V.faults volume) serving };

    ghost breaks = { λ before moment event volume. Breaks K.logs before.identities before.state moment event (V.disk volume) };

    ghost ready = { λ server volume. IsWhole server.hub.rooms × K.is_sound server.keeper × (V.tells → (channels : Channels) × K.keeps server.keeper channels (V.disk volume)) };

    ghost leaves = { λ before now. LeavesBehind (V.follows before now) (V.faults before) (V.faults now) V.tells K.logs.owns (V.disk before) (V.disk now) };

    ghost connected = { λ server. connections_of server.hub.rooms };

    fn step(
        &mut self,
        alloc: Global,
        world: &mut V,
        moment: u64,
        event: Event,
    ) -> Result<Outs, AllocError> {
        self.hub.step(alloc, &mut self.keeper, world, moment, event)
    }

    ghost leaves_itself = { λ volume. leaves_none (V.follows volume volume) (V.faults volume) V.tells K.logs.owns (V.disk volume) (V.follows_itself volume) };

    ghost leaves_on = { λ before mid now first second. leaves_more (V.follows before mid) (V.follows mid now) (V.follows before now) (V.faults before) (V.faults mid) (V.faults now) V.tells K.logs.owns
        (V.disk before) (V.disk mid) (V.disk now) (V.follows_on before mid now) first second };
}
