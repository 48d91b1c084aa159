ghost use Rattle.std.specs.Prelude.{◌≡◌, List, ℕ};
ghost use Rattle.keeper_state.specs.State.{Found, lists, damages};
ghost use Rattle.log_format.specs.declared.damage.Damage.{Damage};
ghost use Rattle.pad_text.specs.Digits.{IsDigits};
ghost use Rattle.netflux_core.specs.Crashes.{ChannelLogs};
ghost use Rattle.hub_keeper.specs.Keeping.{AreApart, logs_of};

use gated_log::{Ledger, Log};
use keeper_table::{channels_share_no_file, forms_share_no_file};

/// The file of a channel's log of form One, if that is a log in one file, is none of its files of form Two.
pub fn logs_are_apart<G: Ledger>()
    ensures { AreApart ⟦<Log as Ledger>⟧.owns G.owns }
{
    forms_share_no_file::<G>();
}

/// A load of a channel finds what its own files hold: a list or a damage, and no file is one of two channels.
pub fn logs_are_of_files<O: Ledger, G: Ledger>()
    ensures by_files { let logs : ChannelLogs = logs_of O.opens_as G.opens_as G.doubt O.damage G.damage O.owns G.owns in
        (channel : List ℕ) (one other : List ℕ → List ℕ) (found : Found) → ((file : List ℕ) → logs.owns channel file → other file ≡ one file)
        → logs.finds channel one found → logs.finds channel other found }
    ensures either { let logs : ChannelLogs = logs_of O.opens_as G.opens_as G.doubt O.damage G.damage O.owns G.owns in
        (channel : List ℕ) (files : List ℕ → List ℕ) (damage : Damage) (held suspense : List (List ℕ))
        → logs.finds channel files (damages damage) → logs.finds channel files (lists held suspense) → ⊥ }
    ensures apart { let logs : ChannelLogs = logs_of O.opens_as G.opens_as G.doubt O.damage G.damage O.owns G.owns in
        (channel other file : List ℕ) → IsDigits 32 channel → IsDigits 32 other → logs.owns channel file → logs.owns other file → other ≡ channel }
{
    channels_share_no_file::<O, G>();
}
