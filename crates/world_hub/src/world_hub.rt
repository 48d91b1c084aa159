ghost use Rattle.std.specs.Prelude.{◌≡◌, true, ◌≤◌, ◌+◌, [], ℕ, List, IfOk, OnOk};
ghost use Rattle.disk_volume.specs.Disk.{file_at, at_rest};
ghost use Rattle.disk_volume.specs.Memory.{fresh, disk_of};
ghost use Rattle.disk_volume.specs.Stop.{has_stopped, left_by};
ghost use Rattle.world_hub.specs.State.{HubState, StandsAs, IsReady, IsNew, new_hub, is_set, with_stop};
ghost use Rattle.world_hub.specs.Steps.{Steps, Reopens};

use disk_volume::{MemVolume, Pick};
use netflux_core::{Hub, Keep};
use serve_loop::{Event, Outs};
use std::alloc::{AllocError, Global};

/// A hub and its keeper over a volume in memory. After want of memory it may only be dropped.
#[derive(Drop)]
pub struct WorldHub<K> {
    hub: Hub,
    keeper: K,
    volume: MemVolume,
    stream: u64,
    moment: u64,
    was_set: bool,
}

/// The number that follows. After 2^64 - 1 there is none, as if memory ran out.
fn following(number: u64) -> Result<u64, AllocError>
    ensures { IfOk result (λ next. next ≡ number + 1) }
{
    match number.checked_add(1) {
        Some(next) => Ok(next),
        None => Err(AllocError),
    }
}

/// Whether a count is as it was.
fn is_same(before: u64, now: u64) -> bool
    ensures { result ≡ true → now ≡ before }
{
    now == before
}

impl<K: Keep + Drop> WorldHub<K> {
    /// Nobody is connected, and the volume has no file. The key is 32 zeros, and the stream 0. The keeper has loaded no channel yet.
    pub fn new(alloc: Global, keeper: K) -> Result<WorldHub<K>, AllocError>
        requires { IsNew (K.is_sound keeper) (K.keeps keeper) }
        ensures stands { IfOk result (λ made. StandsAs (K.keeps made.keeper) made.hub.rooms made.volume made.stream made.moment new_hub) }
        ensures ready { IfOk result (λ made. IsReady (K.is_sound made.keeper) (K.keeps made.keeper) made.hub.rooms made.volume made.was_set) }
    {
        let volume = MemVolume::new(alloc, Vec::new(alloc));
        let hub = Hub::new(alloc, [0; 32], 0)?;
        Ok(WorldHub {
            hub,
            keeper,
            volume,
            stream: 0,
            moment: 0,
            was_set: false,
        })
    }

    /// Whether the volume has stopped.
    pub fn has_stopped(&self) -> bool
        ensures { result ≡ has_stopped self.now.volume.stop }
    {
        self.volume.has_stopped()
    }

    /// Whether a stop is set that has not come.
    pub fn is_stop_set(&self) -> bool
        requires { IsReady (K.is_sound self.now.keeper) (K.keeps self.now.keeper) self.now.hub.rooms self.now.volume self.now.was_set }
        ensures { result ≡ is_set self.now.volume.stop }
    {
        self.was_set && !self.volume.has_stopped()
    }

    /// A step by an event, at the next moment. Memory is wanted always where a growth was refused to the volume in it.
    pub fn step(&mut self, alloc: Global, event: Event) -> Result<Outs, AllocError>
        requires { IsReady (K.is_sound self.old.keeper) (K.keeps self.old.keeper) self.old.hub.rooms self.old.volume self.old.was_set }
        ensures steps { IfOk result (λ outs. (before : HubState) → StandsAs (K.keeps self.old.keeper) self.old.hub.rooms self.old.volume self.old.stream self.old.moment before
            → (after : HubState) × Steps K.logs before event outs after × StandsAs (K.keeps self.new.keeper) self.new.hub.rooms self.new.volume self.new.stream self.new.moment after) }
        ensures ready { OnOk result (IsReady (K.is_sound self.new.keeper) (K.keeps self.new.keeper) self.new.hub.rooms self.new.volume self.new.was_set) }
        ensures fed { OnOk result (self.new.volume.starved ≡ self.old.volume.starved) }
    {
        let moment = following(self.moment)?;
        let starved = self.volume.starved();
        let outs = self
            .hub
            .step(alloc, &mut self.keeper, &mut self.volume, moment, event)?;
        let now = self.volume.starved();
        if is_same(starved, now) {
            self.moment = moment;
            return Ok(outs);
        }
        Err(AllocError)
    }

    /// Simulates a crash in this call of the volume from now on, counted from 1: that call and all later ones fail.
    pub fn stop_at(&mut self, call: u32, pick: Pick) -> Result<(), AllocError>
        requires some { 1 ≤ call }
        requires ready { IsReady (K.is_sound self.old.keeper) (K.keeps self.old.keeper) self.old.hub.rooms self.old.volume self.old.was_set }
        ensures stands { (before : HubState) → StandsAs (K.keeps self.old.keeper) self.old.hub.rooms self.old.volume self.old.stream self.old.moment before
            → OnOk result (StandsAs (K.keeps self.new.keeper) self.new.hub.rooms self.new.volume self.new.stream self.new.moment (with_stop before call pick)) }
        ensures ready { OnOk result (IsReady (K.is_sound self.new.keeper) (K.keeps self.new.keeper) self.new.hub.rooms self.new.volume self.new.was_set) }
    {
        match self.volume.calls().checked_add(u64::from(call) - 1) {
            Some(last) => {
                self.volume.stop_at(last, pick);
                self.was_set = true;
                Ok(())
            }
            None => Err(AllocError),
        }
    }

    /// The volume that the stop left, or as it reads if it has not stopped. The volume has no call of it.
    pub fn image(&self, alloc: Global) -> Result<MemVolume, AllocError>
        ensures new { IfOk result (λ image. image ≡ fresh image.first []) }
        ensures files { IfOk result (λ image. (name : List ℕ) →
            file_at (disk_of image) name ≡ at_rest (left_by self.now.volume.stop (file_at (disk_of self.now.volume) name))) }
    {
        self.volume.image(alloc)
    }

    /// A new hub goes on over what the stop left, or over the volume as it reads if there was none, with a keeper that has loaded no
    /// channel yet.
    pub fn reopen(&mut self, alloc: Global, keeper: K) -> Result<(), AllocError>
        requires { IsNew (K.is_sound keeper) (K.keeps keeper) }
        ensures reopens { OnOk result ((before : HubState) → StandsAs (K.keeps self.old.keeper) self.old.hub.rooms self.old.volume self.old.stream self.old.moment before
            → (after : HubState) × Reopens before after × StandsAs (K.keeps self.new.keeper) self.new.hub.rooms self.new.volume self.new.stream self.new.moment after) }
        ensures ready { OnOk result (IsReady (K.is_sound self.new.keeper) (K.keeps self.new.keeper) self.new.hub.rooms self.new.volume self.new.was_set) }
    {
        let stream = following(self.stream)?;
        let volume = self.volume.image(alloc)?;
        let hub = Hub::new(alloc, [0; 32], stream)?;
        self.hub = hub;
        self.keeper = keeper;
        self.volume = volume;
        self.stream = stream;
        self.was_set = false;
        Ok(())
    }
}
