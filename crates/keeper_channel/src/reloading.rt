ghost use Rattle.std.specs.Prelude.{◌≡◌, ◌≤◌, ◌⊎◌, ◌++◌, List, ℕ, IfOk, OnOk, IfErr, IsTrue, IsErrOf};
ghost use Rattle.pad_edge.specs.Count.{Rose};
ghost use Rattle.disk_volume.specs.Disk.{reads};
ghost use Rattle.disk_volume.specs.Moments.{EachNow, EachSince, Grew, OnlySyncs};
ghost use Rattle.keeper_channel.specs.Chan.{IsList, IsWithin};
ghost use Rattle.keeper_channel.specs.Disks.{Either};
ghost use Rattle.log_format.specs.declared.damage.Damage.{Damage};
ghost use Rattle.keeper_channel.specs.Logs.{NamesDamage};
ghost use Rattle.keeper_channel.specs.Slot.{HasDamage, IsReloaded, IsSlotFound, IsSlotOf};

use crate::opening::load_slot;
use crate::slot::Slot;
use disk_volume::Volume;
use gated_log::{Ledger, LoadRefused};
use log_format::Form;
use std::alloc::Global;

/// Loads a channel, as `load_slot` does. Of one whose list is held, or held and in suspense, in each image, it is one of the two, that
/// which its files open as.
pub fn reload<O: Ledger, G: Ledger, V: Volume>(
    alloc: Global,
    volume: &mut V,
    one: &str,
    two: &str,
) -> Result<Slot<O, G>, LoadRefused>
    requires apart { (file : List ℕ) → G.owns two.now file → O.owns one.now file → ⊥ }
    ensures made { IfOk result (IsSlotOf (λ log. (O.name log ≡ one.now) × (O.form_of log ≡ Form.One) × IsTrue (O.live log)) (λ log. (G.name log ≡ two.now) × (G.form_of log ≡ Form.Two) × IsTrue (G.live log)) O.count G.count) }
    ensures found { V.tells → IfOk result (λ slot. IsSlotFound (O.opens_as Form.One one.now) (G.opens_as Form.Two two.now) (G.doubt Form.Two two.now) O.holds G.holds
        (reads (V.disk volume.old)) slot (V.disk volume.new)) }
    ensures reads { V.tells → (other : List ℕ) → reads (V.disk volume.new) other ≡ reads (V.disk volume.old) other }
    ensures damaged { V.tells → IfErr result (NamesDamage (HasDamage (O.opens_as Form.One one.now) (G.opens_as Form.Two two.now) (O.damage Form.One one.now) (G.damage Form.Two two.now)
        (reads (V.disk volume.old)))) }
    ensures undamaged { V.tells → OnOk result ((damage : Damage) → HasDamage (O.opens_as Form.One one.now) (G.opens_as Form.Two two.now) (O.damage Form.One one.now) (G.damage Form.Two two.now)
        (reads (V.disk volume.old)) damage → ⊥) }
    ensures any_moment { V.tells → (held suspense : List (List ℕ)) → EachNow (V.disk volume.old) (λ image. IsWithin (IsList (O.opens_as Form.One one.now) (G.opens_as Form.Two two.now) image) held suspense)
        → EachSince (V.disk volume.old) (V.disk volume.new) (λ image. IsWithin (IsList (O.opens_as Form.One one.now) (G.opens_as Form.Two two.now) image) held suspense) }
    ensures reloaded { V.tells → (held suspense : List (List ℕ)) → EachNow (V.disk volume.old) (λ image. IsWithin (IsList (O.opens_as Form.One one.now) (G.opens_as Form.Two two.now) image) held suspense)
        → IfOk result (λ slot. IsReloaded (O.opens_as Form.One one.now) (G.opens_as Form.Two two.now) (G.doubt Form.Two two.now) O.holds G.holds held suspense slot (V.disk volume.old) (V.disk volume.new)) }
    ensures files { V.tells → Grew (Either (O.owns one.now) (G.owns two.now)) (V.disk volume.old) (V.disk volume.new) }
    ensures syncs { V.tells → OnlySyncs (Either (O.owns one.now) (G.owns two.now)) (V.disk volume.old) (V.disk volume.new) }
    ensures follows { V.follows volume.old volume.new }
    ensures store { IsErrOf result LoadRefused.Store → Rose (V.faults volume.old) (V.faults volume.new) }
    ensures kept { IsErrOf result LoadRefused.Store ⊎ (V.faults volume.new ≡ V.faults volume.old) }
    ensures later { V.faults volume.old ≤ V.faults volume.new }
{
    load_slot(alloc, volume, one, two)
}
