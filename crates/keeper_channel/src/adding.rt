ghost use Rattle.std.specs.Prelude.{◌≡◌, ◌+◌, ◌≤◌, ◌⊎◌, ◌++◌, [], false, List, ℕ, length, OnOk, OnErr, IfOk, IsErrOf, IsTrue};
ghost use Rattle.pad_edge.specs.Count.{Rose};
ghost use Rattle.disk_volume.specs.Disk.{reads};
ghost use Rattle.disk_volume.specs.Moments.{EachNow, EachSince, Grew};
ghost use Rattle.gated_log.specs.Ledger.{Within};
ghost use Rattle.log_format.specs.Frames.{size_of};
ghost use Rattle.keeper_channel.specs.Inside.Adding.{IsAdding};

use disk_volume::Volume;
use gated_log::{AppendRefused, Ledger};
use log_format::Frames;

/// Primes a log for a group and appends it under one gate.
pub fn add_group<G: Ledger, V: Volume>(
    volume: &mut V,
    log: &mut G,
    group: &Frames,
) -> Result<u64, AppendRefused>
    requires live { IsTrue (G.live log.old) }
    requires reserved { length group.now ≤ G.reserved log.old }
    requires holds { V.tells → (payloads : List (List ℕ)) × G.holds log.old payloads (V.disk volume.old) }
    ensures any_moment { V.tells → (payloads : List (List ℕ)) → G.holds log.old payloads (V.disk volume.old) → EachSince (V.disk volume.old) (V.disk volume.new) (λ image.
        IsAdding (G.opens_as (G.form_of log.old) (G.name log.old) image) payloads (G.doubt (G.form_of log.old) (G.name log.old) (reads (V.disk volume.old))) group.now) }
    ensures ok { V.tells → (payloads : List (List ℕ)) → G.holds log.old payloads (V.disk volume.old) → OnOk result (G.holds log.new (payloads ++ group.now) (V.disk volume.new)) }
    ensures sure { V.tells → (payloads : List (List ℕ)) → G.holds log.old payloads (V.disk volume.old) → OnOk result (G.doubt (G.form_of log.new) (G.name log.new) (reads (V.disk volume.new)) ≡ []) }
    // At a refusal each image since it began is the list with what was doubtful or without, or, where the volume failed, each image now
    // is the list with the group or without.
    ensures left { V.tells → (payloads : List (List ℕ)) → G.holds log.old payloads (V.disk volume.old) → OnErr result (
        EachSince (V.disk volume.old) (V.disk volume.new) (λ image. Within (G.opens_as (G.form_of log.old) (G.name log.old) image) payloads (G.doubt (G.form_of log.old) (G.name log.old) (reads (V.disk volume.old))))
        ⊎ (IsErrOf result AppendRefused.Store × EachNow (V.disk volume.new) (λ image. Within (G.opens_as (G.form_of log.old) (G.name log.old) image) payloads group.now))) }
    ensures index { IfOk result (λ index. index ≡ G.count log.old) }
    ensures counted { OnOk result (G.count log.new ≡ G.count log.old + length group.now) }
    ensures live { OnOk result (IsTrue (G.live log.new)) }
    ensures name { G.name log.new ≡ G.name log.old }
    ensures form { G.form_of log.new ≡ G.form_of log.old }
    ensures full { IsErrOf result AppendRefused.Full → G.room log.old (length group.now) (size_of group.now) ≡ false }
    ensures store { IsErrOf result AppendRefused.Store → Rose (V.faults volume.old) (V.faults volume.new) }
    ensures follows { V.follows volume.old volume.new }
    ensures kept { IsErrOf result AppendRefused.Store ⊎ (V.faults volume.new ≡ V.faults volume.old) }
    ensures later { V.faults volume.old ≤ V.faults volume.new }
    ensures files { V.tells → Grew (G.owns (G.name log.old)) (V.disk volume.old) (V.disk volume.new) }
{
    log.prime(volume, group.size())?;
    log.append_group(volume, group)
}
