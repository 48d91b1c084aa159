ghost use Rattle.std.specs.Prelude.{◌≡◌, ◌≤◌, ◌⊎◌, List, ℕ, IfOk, OnOk, IfErr, IsErrOf, IsTrue};
ghost use Rattle.pad_edge.specs.Count.{Rose};
ghost use Rattle.disk_volume.specs.Disk.{IsImage, reads};
ghost use Rattle.disk_volume.specs.Moments.{EachSince, Grew, OnlySyncs};
ghost use Rattle.log_format.specs.declared.damage.Damage.{Damage};
ghost use Rattle.keeper_channel.specs.Checked.{IsCheckedFound, IsCheckedOf};
ghost use Rattle.keeper_channel.specs.Disks.{Either};
ghost use Rattle.keeper_channel.specs.Logs.{NamesDamage};
ghost use Rattle.keeper_channel.specs.Slot.{HasDamage, IsSlotFound, IsSlotOf};

use crate::checked::CheckedChannel;
use crate::checking::check_entries;
use crate::indexing::index_entries;
use crate::loading::load_logs;
use crate::slot::Slot;
use disk_volume::Volume;
use gated_log::{Ledger, LoadRefused};
use log_format::Form;
use std::alloc::Global;

/// Loads a channel, looks at each entry, and builds the index. It writes nothing. `Damaged` comes exactly by the files: it tells the
/// damage of form Two, then that of form One where form Two has no marker, then the first payload that holds no entry.
pub fn load_slot<O: Ledger, G: Ledger, V: Volume>(
    alloc: Global,
    volume: &mut V,
    one: &str,
    two: &str,
) -> Result<Slot<O, G>, LoadRefused>
    requires apart { (file : List ℕ) → G.owns two.now file → O.owns one.now file → ⊥ }
    ensures made { IfOk result (IsSlotOf (λ log. (O.name log ≡ one.now) × (O.form_of log ≡ Form.One) × IsTrue (O.live log)) (λ log. (G.name log ≡ two.now) × (G.form_of log ≡ Form.Two) × IsTrue (G.live log)) O.count G.count) }
    ensures found { V.tells → IfOk result (λ slot. IsSlotFound (O.opens_as Form.One one.now) (G.opens_as Form.Two two.now) (G.doubt Form.Two two.now) O.holds G.holds
        (reads (V.disk volume.old)) slot (V.disk volume.new)) }
    ensures damaged { V.tells → IfErr result (NamesDamage (HasDamage (O.opens_as Form.One one.now) (G.opens_as Form.Two two.now) (O.damage Form.One one.now) (G.damage Form.Two two.now)
        (reads (V.disk volume.old)))) }
    ensures undamaged { V.tells → OnOk result ((damage : Damage) → HasDamage (O.opens_as Form.One one.now) (G.opens_as Form.Two two.now) (O.damage Form.One one.now) (G.damage Form.Two two.now)
        (reads (V.disk volume.old)) damage → ⊥) }
    ensures any_moment { V.tells → EachSince (V.disk volume.old) (V.disk volume.new) (IsImage (V.disk volume.old)) }
    ensures reads { V.tells → (other : List ℕ) → reads (V.disk volume.new) other ≡ reads (V.disk volume.old) other }
    ensures files { V.tells → Grew (Either (O.owns one.now) (G.owns two.now)) (V.disk volume.old) (V.disk volume.new) }
    ensures syncs { V.tells → OnlySyncs (Either (O.owns one.now) (G.owns two.now)) (V.disk volume.old) (V.disk volume.new) }
    ensures follows { V.follows volume.old volume.new }
    ensures store { IsErrOf result LoadRefused.Store → Rose (V.faults volume.old) (V.faults volume.new) }
    ensures kept { IsErrOf result LoadRefused.Store ⊎ (V.faults volume.new ≡ V.faults volume.old) }
    ensures later { V.faults volume.old ≤ V.faults volume.new }
{
    let logs = load_logs(alloc, volume, one, two)?;
    let index = index_entries(alloc, volume, &logs)?;
    Ok(Slot { logs, index })
}

/// Loads a channel to read it alone: it looks at each entry, as `load_slot` does and with the same refusals, and builds no index.
pub fn load_checked<O: Ledger, G: Ledger, V: Volume>(
    alloc: Global,
    volume: &mut V,
    one: &str,
    two: &str,
) -> Result<CheckedChannel<O, G>, LoadRefused>
    requires apart { (file : List ℕ) → G.owns two.now file → O.owns one.now file → ⊥ }
    ensures made { IfOk result (IsCheckedOf (λ log. (O.name log ≡ one.now) × (O.form_of log ≡ Form.One) × IsTrue (O.live log)) (λ log. (G.name log ≡ two.now) × (G.form_of log ≡ Form.Two) × IsTrue (G.live log)) O.count G.count) }
    ensures found { V.tells → IfOk result (λ channel. IsCheckedFound (O.opens_as Form.One one.now) (G.opens_as Form.Two two.now) (G.doubt Form.Two two.now) O.holds G.holds
        (reads (V.disk volume.old)) channel (V.disk volume.new)) }
    ensures damaged { V.tells → IfErr result (NamesDamage (HasDamage (O.opens_as Form.One one.now) (G.opens_as Form.Two two.now) (O.damage Form.One one.now) (G.damage Form.Two two.now)
        (reads (V.disk volume.old)))) }
    ensures undamaged { V.tells → OnOk result ((damage : Damage) → HasDamage (O.opens_as Form.One one.now) (G.opens_as Form.Two two.now) (O.damage Form.One one.now) (G.damage Form.Two two.now)
        (reads (V.disk volume.old)) damage → ⊥) }
    ensures any_moment { V.tells → EachSince (V.disk volume.old) (V.disk volume.new) (IsImage (V.disk volume.old)) }
    ensures reads { V.tells → (other : List ℕ) → reads (V.disk volume.new) other ≡ reads (V.disk volume.old) other }
    ensures files { V.tells → Grew (Either (O.owns one.now) (G.owns two.now)) (V.disk volume.old) (V.disk volume.new) }
    ensures syncs { V.tells → OnlySyncs (Either (O.owns one.now) (G.owns two.now)) (V.disk volume.old) (V.disk volume.new) }
    ensures follows { V.follows volume.old volume.new }
    ensures store { IsErrOf result LoadRefused.Store → Rose (V.faults volume.old) (V.faults volume.new) }
    ensures kept { IsErrOf result LoadRefused.Store ⊎ (V.faults volume.new ≡ V.faults volume.old) }
    ensures later { V.faults volume.old ≤ V.faults volume.new }
{
    let logs = load_logs(alloc, volume, one, two)?;
    let count = check_entries(alloc, volume, &logs)?;
    Ok(CheckedChannel { logs, count })
}
