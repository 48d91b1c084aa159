ghost use Rattle.std.specs.Prelude.{◌≡◌, ◌≤◌, ◌⊎◌, List, ℕ, IfOk, IsErrOf};
ghost use Rattle.pad_edge.specs.Count.{Rose};
ghost use Rattle.log_format.specs.declared.damage.Damage.{Damage};
ghost use Rattle.keeper_log.specs.Inside.Loading.{Loads};
ghost use Rattle.keeper_table.specs.Files.{file_one, file_two};
ghost use Rattle.keeper_state.specs.Slot.{IsSlotFor};

use disk_volume::Volume;
use gated_log::{Ledger, LoadRefused};
use keeper_channel::{KeeperRefused, Slot, reload};
use keeper_state::channels_keep_their_lists;
use keeper_table::files_of;
use netflux_codec::Channel;
use std::alloc::Global;

/// Loads a channel that is not loaded, whatever the table has of it. It only syncs the channel's files and reads them: at every
/// moment, and at a refusal too, the channel stays what it was. `Damaged` names the damage of its files, and `Store` comes only where
/// the volume's count of faults rose.
pub(crate) fn load_channel<O: Ledger, G: Ledger, V: Volume>(
    alloc: Global,
    volume: &mut V,
    channel: &Channel,
) -> Result<Slot<O, G>, KeeperRefused>
    requires apart { (file : List ℕ) → G.owns (file_two channel.now) file → O.owns (file_one channel.now) file → ⊥ }
    ensures made { IfOk result (IsSlotFor O.name O.form_of O.live O.count G.name G.form_of G.live G.count channel.now) }
    ensures loads { V.tells → Loads O.rests G.rests O.opens_as G.opens_as G.doubt O.damage G.damage O.holds G.holds O.owns G.owns channel.now result (V.disk volume.old) (V.disk volume.new) }
    ensures full { IsErrOf result KeeperRefused.Full → ⊥ }
    ensures follows { V.follows volume.old volume.new }
    ensures store { IsErrOf result KeeperRefused.Store → Rose (V.faults volume.old) (V.faults volume.new) }
    ensures kept { IsErrOf result KeeperRefused.Store ⊎ (V.faults volume.new ≡ V.faults volume.old) }
    ensures later { V.faults volume.old ≤ V.faults volume.new }
{
    channels_keep_their_lists::<O, G>();
    match files_of(alloc, channel) {
        Ok(files) => load_files(
            alloc,
            volume,
            channel,
            files.one.as_str(),
            files.two.as_str(),
        ),
        Err(error) => Err(KeeperRefused::NoMemory(error)),
    }
}

/// Loads a channel from its two files, by their names.
fn load_files<O: Ledger, G: Ledger, V: Volume>(
    alloc: Global,
    volume: &mut V,
    channel: &Channel,
    one: &str,
    two: &str,
) -> Result<Slot<O, G>, KeeperRefused>
    requires apart { (file : List ℕ) → G.owns (file_two channel.now) file → O.owns (file_one channel.now) file → ⊥ }
    requires one { one.now ≡ file_one channel.now }
    requires two { two.now ≡ file_two channel.now }
    ensures made { IfOk result (IsSlotFor O.name O.form_of O.live O.count G.name G.form_of G.live G.count channel.now) }
    ensures loads { V.tells → Loads O.rests G.rests O.opens_as G.opens_as G.doubt O.damage G.damage O.holds G.holds O.owns G.owns channel.now result (V.disk volume.old) (V.disk volume.new) }
    ensures full { IsErrOf result KeeperRefused.Full → ⊥ }
    ensures follows { V.follows volume.old volume.new }
    ensures store { IsErrOf result KeeperRefused.Store → Rose (V.faults volume.old) (V.faults volume.new) }
    ensures kept { IsErrOf result KeeperRefused.Store ⊎ (V.faults volume.new ≡ V.faults volume.old) }
    ensures later { V.faults volume.old ≤ V.faults volume.new }
{
    channels_keep_their_lists::<O, G>();
    match reload(alloc, volume, one, two) {
        Ok(slot) => Ok(slot),
        Err(refused) => Err(refused_for(refused)),
    }
}

/// What a call is refused with where the load that it needs was refused.
fn refused_for(refused: LoadRefused) -> KeeperRefused
    ensures damaged { (damage : Damage) → result ≡ KeeperRefused.Damaged damage → refused ≡ LoadRefused.Damaged damage }
    ensures store { result ≡ KeeperRefused.Store → refused ≡ LoadRefused.Store }
    ensures told { refused ≡ LoadRefused.Store → result ≡ KeeperRefused.Store }
    ensures full { result ≡ KeeperRefused.Full → ⊥ }
{
    match refused {
        LoadRefused::Store => KeeperRefused::Store,
        LoadRefused::Damaged(damage) => KeeperRefused::Damaged(damage),
        LoadRefused::NoMemory(error) => KeeperRefused::NoMemory(error),
    }
}
