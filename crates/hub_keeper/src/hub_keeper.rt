ghost use Rattle.std.specs.Prelude.{◌≡◌, ◌⊎◌, ◌≤◌, ◌<◌, ◌+◌, ◌∷◌, [], ℕ, List, length, IfOk, OnOk, IsErrOf};
ghost use Rattle.disk_volume.specs.Disk.{Disk, AtRest};
ghost use Rattle.keeper_log.specs.Keeper.{IsKeeper, HasEntry};
ghost use Rattle.netflux_core.specs.Channels.{Channels, no_channels};
ghost use Rattle.hub_keeper.specs.Keeping.{AreApart, KeepsAll, IsLoaded, logs_of};

use disk_volume::Volume;
use gated_log::Ledger;
use keeper_channel::KeeperRefused;
use keeper_log::Keeper;
use keeper_state::{channels_keep_their_lists, other_channels_stand};
use keeper_table::{Entry, Span};
use netflux_codec::{Ask, Channel, Id};
use netflux_core::Keep;
use pad_edge::Wire;
use std::alloc::Global;

/// A keeper over logs, as a hub wants one.
#[derive(Drop)]
pub struct HubKeeper<O, G> {
    keeper: Keeper<O, G>,
}

impl<O: Ledger, G: Ledger> HubKeeper<O, G> {
    /// A keeper that has loaded no channel yet. So it has every channel on each disk where nothing is pending on any file.
    pub fn new(alloc: Global) -> HubKeeper<O, G>
        requires apart { AreApart O.owns G.owns }
        ensures sound { IsKeeper O.name O.form_of O.live O.count G.name G.form_of G.live G.count result.keeper.table × AreApart O.owns G.owns }
        ensures keeps { (disk : Disk) → ((file : List ℕ) → AtRest disk file)
            → KeepsAll O.rests G.rests O.opens_as G.opens_as G.doubt O.holds G.holds result.keeper.table no_channels disk }
    {
        HubKeeper {
            keeper: Keeper::new(alloc),
        }
    }
}

impl<O: Ledger, G: Ledger> Keep for HubKeeper<O, G> {
    ghost is_sound = { λ hub. IsKeeper O.name O.form_of O.live O.count G.name G.form_of G.live G.count hub.keeper.table × AreApart O.owns G.owns };

    ghost keeps = { λ hub channels disk. KeepsAll O.rests G.rests O.opens_as G.opens_as G.doubt O.holds G.holds hub.keeper.table channels disk };

    ghost logs = { logs_of O.opens_as G.opens_as G.doubt O.damage G.damage O.owns G.owns };

    ghost is_loaded = { λ hub channel. IsLoaded hub.keeper.table channel };

    ghost has_entry = { λ hub channel index. HasEntry hub.keeper.table channel index };

    fn store_entry<V: Volume>(
        &mut self,
        alloc: Global,
        volume: &mut V,
        channel: &Channel,
        moment: u64,
        sender: &Id,
        content: &Wire,
    ) -> Result<u64, KeeperRefused> {
        channels_keep_their_lists::<O, G>();
        other_channels_stand::<O, G>();
        let _digits = channel.digits();
        self.keeper
            .store(alloc, volume, channel, moment, sender, content.as_str())
    }

    fn find_span<V: Volume>(
        &mut self,
        alloc: Global,
        volume: &mut V,
        ask: &Ask,
    ) -> Result<Span, KeeperRefused> {
        channels_keep_their_lists::<O, G>();
        other_channels_stand::<O, G>();
        match ask {
            Ask::History(channel, from) => {
                let _digits = channel.digits();
                self.keeper.span(alloc, volume, channel, from)
            }
            Ask::At(channel, index) => {
                let _digits = channel.digits();
                self.keeper.tail(alloc, volume, channel, u64::from(*index))
            }
        }
    }

    fn entry_for<V: Volume>(
        &mut self,
        alloc: Global,
        volume: &mut V,
        ask: &Ask,
        index: u64,
    ) -> Result<Entry, KeeperRefused> {
        match ask {
            Ask::History(channel, _) => {
                let _digits = channel.digits();
                self.keeper.entry(alloc, volume, channel, index)
            }
            Ask::At(channel, _) => {
                let _digits = channel.digits();
                self.keeper.entry(alloc, volume, channel, index)
            }
        }
    }

    fn crashes_leave_what_is_held() {
        channels_keep_their_lists::<O, G>();
    }

    fn live_is_loaded() {}

    fn reads_what_is_held() {}
}
