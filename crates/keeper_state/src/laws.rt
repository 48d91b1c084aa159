ghost use Rattle.std.specs.Prelude.{◌≡◌, ◌≢◌, List, ℕ, Option, IfSome};
ghost use Rattle.disk_volume.specs.Disk.{Disk, IsImage, reads};
ghost use Rattle.disk_volume.specs.Moments.{EachNow, Grew, JustSyncs};
ghost use Rattle.pad_text.specs.Digits.{IsDigits};
ghost use Rattle.keeper_channel.specs.declared.slot.Slot.{Slot};
ghost use Rattle.keeper_table.specs.Files.{OfChannel};
ghost use Rattle.keeper_state.specs.Slot.{IsSlotFor};
ghost use Rattle.keeper_state.specs.State.{State, Found, Finds, Has, HoldsWithin, LeavesList, StandsFor};
ghost use Rattle.keeper_table.specs.Table.{joined};

use gated_log::Ledger;
use keeper_channel::{
    a_crash_leaves_what_is_kept, other_channels_are_kept, unloaded_channels_are_kept,
};
use keeper_table::{channels_share_no_file, other_channels_stay};

/// Of a channel that stands for a state, a crash leaves what is held, with what is in suspense or without.
pub fn channels_keep_their_lists<O: Ledger, G: Ledger>()
    ensures { (channel : List ℕ) (found : Option (Option (Slot O G))) (state : State) (disk : Disk) (held suspense : List (List ℕ))
        → IfSome (joined found) (IsSlotFor O.name O.form_of O.live O.count G.name G.form_of G.live G.count channel)
        → StandsFor O.rests G.rests O.opens_as G.opens_as G.doubt O.holds G.holds channel found state disk
        → Has (Finds O.opens_as G.opens_as G.doubt O.damage G.damage channel (reads disk)) state held suspense
        → EachNow disk (HoldsWithin O.opens_as G.opens_as channel held suspense) }
{
    a_crash_leaves_what_is_kept::<O, G>();
    unloaded_channels_are_kept::<O, G>();
}

/// Calls on the files of a channel leave the state of every other one, and at every moment its list.
pub fn other_channels_stand<O: Ledger, G: Ledger>()
    ensures { (channel other : List ℕ) (found : Option (Option (Slot O G))) (state : State) (old new : Disk) → IsDigits 32 channel → IsDigits 32 other → channel ≢ other
        → IsImage old (reads old) → Grew (OfChannel O.owns G.owns channel) old new
        → IfSome (joined found) (IsSlotFor O.name O.form_of O.live O.count G.name G.form_of G.live G.count other)
        → StandsFor O.rests G.rests O.opens_as G.opens_as G.doubt O.holds G.holds other found state old
        → StandsFor O.rests G.rests O.opens_as G.opens_as G.doubt O.holds G.holds other found state new
        × LeavesList O.opens_as G.opens_as other (Finds O.opens_as G.opens_as G.doubt O.damage G.damage other (reads old)) state old new }
{
    channels_share_no_file::<O, G>();
    other_channels_stay::<O, G>();
    other_channels_are_kept::<O, G>();
    unloaded_channels_are_kept::<O, G>();
}

/// What a load of a channel finds is what it found before, whatever was done to the files of other channels, and whatever was synced. So of
/// a channel that was not loaded yet it finds what its files gave at first.
pub fn loads_find_the_same<O: Ledger, G: Ledger>()
    ensures others { (channel other : List ℕ) (old new : Disk) (found : Found) → IsDigits 32 channel → IsDigits 32 other → channel ≢ other
        → Grew (OfChannel O.owns G.owns channel) old new
        → Finds O.opens_as G.opens_as G.doubt O.damage G.damage other (reads old) found → Finds O.opens_as G.opens_as G.doubt O.damage G.damage other (reads new) found }
    ensures synced { (channel : List ℕ) (old new : Disk) (found : Found) → JustSyncs old new
        → Finds O.opens_as G.opens_as G.doubt O.damage G.damage channel (reads old) found → Finds O.opens_as G.opens_as G.doubt O.damage G.damage channel (reads new) found }
{
    channels_share_no_file::<O, G>();
}
