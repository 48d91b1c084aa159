ghost use Rattle.std.specs.Prelude.{◌≡◌, ◌⊎◌, ◌++◌, ◌∷◌, [], ℕ, List};
ghost use Rattle.disk_volume.specs.Disk.{Disk};
ghost use Rattle.keeper_channel.specs.declared.refused.KeeperRefused.{KeeperRefused};
ghost use Rattle.keeper_entry.specs.Entry.{payload_of};
ghost use Rattle.keeper_state.specs.State.{live};
ghost use Rattle.netflux_rooms.specs.Machine.{stores, posted};
ghost use Rattle.netflux_rooms.specs.Rooms.{Identities, id_of};
ghost use Rattle.serve_loop.specs.declared.event.Event.{Event};
ghost use Rattle.serve_loop.specs.declared.out.Out.{Out};
ghost use Rattle.netflux_core.specs.Machine.{ServeState, serve_begins, Becomes};
ghost use Rattle.netflux_core.specs.Runs.{Runs};
ghost use Rattle.netflux_core.specs.Stored.{AreHeld, HoldsAllStored};
ghost use Rattle.netflux_core.specs.Words.{Refuses};

use crate::keep::Keep;

/// A message to a channel is refused; or it is acknowledged and passed on, and its entry is the last of what is held then, with nothing in
/// suspense.
pub fn acknowledged_entries_are_the_last<K: Keep>()
    ensures { (identities : Identities) (state next : ServeState) (moment number seq : ℕ) (channel content : List ℕ) (outs : List Out)
        → Becomes K.logs identities state moment outs next (stores number seq channel content)
        → ((why : KeeperRefused) × Refuses number seq channel why outs)
        ⊎ ((outs ≡ posted identities state.rooms number seq channel content)
        × (held : List (List ℕ)) × (next.channels.at channel ≡ live (held ++ payload_of moment (id_of identities state.rooms number) content ∷ []) [])) }
{}

/// What steps stored stays where it was stored: after any run each entry is in the list held of its channel, at its index, if those stored
/// before were.
pub fn stored_entries_stay<K: Keep>()
    ensures { (identities : Identities) (first next : ServeState) (events : List (ℕ × Event)) (outputs : List (List Out))
        → Runs K.logs identities first events outputs next → AreHeld first.channels first.stored → AreHeld next.channels next.stored }
{}

/// After any run in which no step failed each channel's list is the one that its files gave when it was first loaded, before which only other
/// channels' files were acted on, and then the payloads that steps stored in it, in order.
pub fn unfailing_runs_hold_all<K: Keep>()
    ensures { (identities : Identities) (disk : Disk) (next : ServeState) (events : List (ℕ × Event)) (outputs : List (List Out))
        → Runs K.logs identities (serve_begins disk) events outputs next → next.failures ≡ 0
        → (channel : List ℕ) → HoldsAllStored K.logs disk channel next }
{}
