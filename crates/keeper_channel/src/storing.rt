ghost use Rattle.std.specs.Prelude.{◌≡◌, ◌+◌, ◌≤◌, ◌++◌, [], ◌∷◌, List, ℕ, length, IfOk, IsTrue, IsErrOf, ◌⊎◌};
ghost use Rattle.pad_edge.specs.Count.{Rose};
ghost use Rattle.disk_volume.specs.Moments.{EachNow, Grew};
ghost use Rattle.keeper_channel.specs.Chan.{IsList, IsWithin};
ghost use Rattle.keeper_channel.specs.Disks.{Either};
ghost use Rattle.keeper_channel.specs.Logs.{IsMoved, IsUnmoved, IsLive, IsLogsOf, HasCount};
ghost use Rattle.keeper_channel.specs.Inside.Adding.{IsAdded};

use crate::adding::add_group;
use crate::logs::{Added, Logs};
use crate::migrating::migrate;
use crate::refused::KeeperRefused;
use disk_volume::Volume;
use gated_log::{AppendRefused, Ledger};
use log_format::{Form, Frames};
use std::alloc::{AllocError, Global};

/// Stores a group in a channel that is loaded and was moved.
pub fn store_new<O: Ledger, G: Ledger, V: Volume>(
    alloc: Global,
    volume: &mut V,
    one: &str,
    log: G,
    marker: u64,
    group: &Frames,
) -> Result<Added<O, G>, KeeperRefused>
    requires form { G.form_of log ≡ Form.Two }
    requires live { IsTrue (G.live log) }
    requires holds { V.tells → (payloads : List (List ℕ)) × G.holds log payloads (V.disk volume.old) }
    ensures counted { (count : ℕ) → G.count log ≡ count + 1 → IfOk result (λ added. HasCount O.count G.count added.logs (count + length group.now)) }
    ensures added { V.tells → (held suspense : List (List ℕ)) → IsMoved G.holds (G.doubt Form.Two (G.name log)) log marker held suspense (V.disk volume.old)
        → IsAdded (O.opens_as Form.One one.now) (G.opens_as Form.Two (G.name log)) (G.doubt Form.Two (G.name log)) O.holds G.holds held suspense group.now result (V.disk volume.old) (V.disk volume.new) }
    ensures files { V.tells → Grew (G.owns (G.name log)) (V.disk volume.old) (V.disk volume.new) }
    ensures made { IfOk result (λ added. IsLogsOf (λ old. (O.name old ≡ one.now) × (O.form_of old ≡ Form.One) × IsTrue (O.live old)) (λ kept. (G.name kept ≡ G.name log) × (G.form_of kept ≡ Form.Two) × IsTrue (G.live kept)) added.logs) }
    ensures follows { V.follows volume.old volume.new }
    ensures store { IsErrOf result KeeperRefused.Store → Rose (V.faults volume.old) (V.faults volume.new) }
    ensures kept { IsErrOf result KeeperRefused.Store ⊎ (V.faults volume.new ≡ V.faults volume.old) }
    ensures later { V.faults volume.old ≤ V.faults volume.new }
{
    let mut log = log;
    if log.reserve(alloc, group.sizes().len()).is_err() {
        return Err(KeeperRefused::NoMemory(AllocError));
    }
    match add_group(volume, &mut log, group) {
        // The marker is a payload of the log, and no entry.
        Ok(index) => Ok(Added {
            logs: Logs::Moved { log, marker },
            index: index.saturating_sub(1),
        }),
        Err(AppendRefused::Full) => Err(KeeperRefused::Full),
        Err(AppendRefused::Store) => Err(KeeperRefused::Store),
    }
}

/// Stores a group in a channel that is loaded and was not moved yet: it moves it first.
fn store_old<O: Ledger, G: Ledger, V: Volume>(
    alloc: Global,
    volume: &mut V,
    one: &str,
    two: &str,
    old: O,
    loaded: G,
    group: &Frames,
) -> Result<Added<O, G>, KeeperRefused>
    requires named_one { O.name old ≡ one.now }
    requires named_two { G.name loaded ≡ two.now }
    requires form_one { O.form_of old ≡ Form.One }
    requires form_two { G.form_of loaded ≡ Form.Two }
    requires live_one { IsTrue (O.live old) }
    requires apart { (file : List ℕ) → G.owns two.now file → O.owns (O.name old) file → ⊥ }
    requires holds { V.tells → (held : List (List ℕ)) × (suspense : List (List ℕ)) × IsUnmoved O.holds G.holds old loaded held suspense (V.disk volume.old) }
    ensures counted { IfOk result (λ added. HasCount O.count G.count added.logs (O.count old + length group.now)) }
    ensures added { V.tells → (held suspense : List (List ℕ)) → IsUnmoved O.holds G.holds old loaded held suspense (V.disk volume.old)
        → IsAdded (O.opens_as Form.One one.now) (G.opens_as Form.Two two.now) (G.doubt Form.Two two.now) O.holds G.holds held suspense group.now result (V.disk volume.old) (V.disk volume.new) }
    ensures files { V.tells → Grew (G.owns two.now) (V.disk volume.old) (V.disk volume.new) }
    ensures made { IfOk result (λ added. IsLogsOf (λ log. (O.name log ≡ one.now) × (O.form_of log ≡ Form.One) × IsTrue (O.live log)) (λ log. (G.name log ≡ two.now) × (G.form_of log ≡ Form.Two) × IsTrue (G.live log)) added.logs) }
    ensures follows { V.follows volume.old volume.new }
    ensures store { IsErrOf result KeeperRefused.Store → Rose (V.faults volume.old) (V.faults volume.new) }
    ensures kept { IsErrOf result KeeperRefused.Store ⊎ (V.faults volume.new ≡ V.faults volume.old) }
    ensures later { V.faults volume.old ≤ V.faults volume.new }
{
    let log: G = migrate(alloc, volume, &old, two)?;
    store_new(alloc, volume, one, log, old.count(), group)
}

/// Stores a group in loaded logs.
pub fn store_live<O: Ledger, G: Ledger, V: Volume>(
    alloc: Global,
    volume: &mut V,
    one: &str,
    two: &str,
    logs: Logs<O, G>,
    group: &Frames,
) -> Result<Added<O, G>, KeeperRefused>
    requires made { IsLogsOf (λ log. (O.name log ≡ one.now) × (O.form_of log ≡ Form.One) × IsTrue (O.live log)) (λ log. (G.name log ≡ two.now) × (G.form_of log ≡ Form.Two) × IsTrue (G.live log)) logs }
    requires apart { (file : List ℕ) → G.owns two.now file → O.owns one.now file → ⊥ }
    requires live { V.tells → (held : List (List ℕ)) × (suspense : List (List ℕ)) × IsLive O.holds G.holds (G.doubt Form.Two two.now) logs held suspense (V.disk volume.old) }
    ensures counted { (count : ℕ) → HasCount O.count G.count logs count → IfOk result (λ added. HasCount O.count G.count added.logs (count + length group.now)) }
    ensures added { V.tells → (held suspense : List (List ℕ)) → IsLive O.holds G.holds (G.doubt Form.Two two.now) logs held suspense (V.disk volume.old)
        → IsAdded (O.opens_as Form.One one.now) (G.opens_as Form.Two two.now) (G.doubt Form.Two two.now) O.holds G.holds held suspense group.now result (V.disk volume.old) (V.disk volume.new) }
    ensures files { V.tells → Grew (G.owns two.now) (V.disk volume.old) (V.disk volume.new) }
    ensures made { IfOk result (λ added. IsLogsOf (λ log. (O.name log ≡ one.now) × (O.form_of log ≡ Form.One) × IsTrue (O.live log)) (λ log. (G.name log ≡ two.now) × (G.form_of log ≡ Form.Two) × IsTrue (G.live log)) added.logs) }
    ensures follows { V.follows volume.old volume.new }
    ensures store { IsErrOf result KeeperRefused.Store → Rose (V.faults volume.old) (V.faults volume.new) }
    ensures kept { IsErrOf result KeeperRefused.Store ⊎ (V.faults volume.new ≡ V.faults volume.old) }
    ensures later { V.faults volume.old ≤ V.faults volume.new }
{
    match logs {
        Logs::Unmoved {
            one: old,
            two: loaded,
        } => store_old(alloc, volume, one, two, old, loaded, group),
        Logs::Moved { log, marker } => store_new(alloc, volume, one, log, marker, group),
    }
}
