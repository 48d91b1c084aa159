ghost use Rattle.std.specs.Prelude.{◌≡◌, ◌≢◌, ◌<◌, ◌⊎◌, OnOk, OnErr, IsErrOf};
ghost use Rattle.pad_edge.specs.Count.{Rose};
ghost use Rattle.pad_output.specs.Output.{AppendsSome};
ghost use Rattle.disk_volume.specs.Disk.{reads};
ghost use Rattle.disk_volume.specs.Moments.{OnlySyncs};
ghost use Rattle.log_format.specs.declared.damage.Damage.{Damage};
ghost use Rattle.pad_log.specs.Log.{IsLogText};
ghost use Rattle.pad_top.specs.Log.{IsChannelList, IsChannelDamage, IsChannelFile, IsPartOfLog, LogEnds, LogIsCutShort};

use crate::end::end;
use crate::status::Status;
use crate::words::LogWords;
use disk_volume::Volume;
use gated_log::Log;
use keeper_table::forms_share_no_file;
use pad_edge::{Failed, Sink};
use pad_log::{LogRefused, write_channel};
use std::alloc::Global;

/// Writes the log of a channel in a folder, and tells how that ended. The channel's files are only synced, and no other file is touched.
pub(crate) fn log<O: Sink, V: Volume>(
    alloc: Global,
    words: &LogWords<'_>,
    output: &mut O,
    volume: &mut V,
) -> Status
    ensures whole { result ≢ Status.WriteFault →
        let store_failed = Rose (V.faults volume.old) (V.faults volume.new) in
        AppendsSome (LogEnds words.now.channel V.tells (reads (V.disk volume.old)) store_failed result) (O.written output.old) (O.written output.new) }
    ensures part { result ≡ Status.WriteFault →
        let store_failed = Rose (V.faults volume.old) (V.faults volume.new) in
        LogIsCutShort words.now.channel V.tells (reads (V.disk volume.old)) store_failed (O.written output.old) (O.written output.new) }
    ensures complete { ¬ (Rose (V.faults volume.old) (V.faults volume.new)) → ¬ (Rose (O.faults output.old) (O.faults output.new))
        → (result ≡ Status.Ok) ⊎ ((result ≡ Status.NoMemory) ⊎ ((result ≡ Status.Damaged)
        × (V.tells → (damage : Damage) × IsChannelDamage words.now.channel (reads (V.disk volume.old)) damage))) }
    ensures syncs { V.tells → OnlySyncs (IsChannelFile words.now.channel) (V.disk volume.old) (V.disk volume.new) }
    ensures follows { V.follows volume.old volume.new }
    ensures store_fault { result ≡ Status.StoreFault → Rose (V.faults volume.old) (V.faults volume.new) }
    ensures store_told { V.faults volume.old < V.faults volume.new → (result ≡ Status.StoreFault) ⊎ (result ≡ Status.WriteFault) }
    ensures write_fault { result ≡ Status.WriteFault → Rose (O.faults output.old) (O.faults output.new) }
    ensures write_told { O.faults output.old < O.faults output.new → result ≡ Status.WriteFault }
{
    match write_folder(alloc, words, output, volume) {
        Ok(()) => Status::Ok,
        Err(LogRefused::Write) => Status::WriteFault,
        Err(LogRefused::NoMemory(_)) => Status::NoMemory,
        Err(LogRefused::Store) => end(output, Status::StoreFault.line(), Status::StoreFault),
        Err(LogRefused::Damaged(_)) => end(output, Status::Damaged.line(), Status::Damaged),
    }
}

/// Writes the lines of the channel's entries.
fn write_folder<O: Sink, V: Volume>(
    alloc: Global,
    words: &LogWords<'_>,
    output: &mut O,
    volume: &mut V,
) -> Result<(), LogRefused>
    ensures whole { OnOk result (AppendsSome (IsLogText V.tells (IsChannelList words.now.channel (reads (V.disk volume.old)))) (O.written output.old) (O.written output.new)) }
    ensures part { OnErr result (AppendsSome (IsPartOfLog words.now.channel V.tells (reads (V.disk volume.old))) (O.written output.old) (O.written output.new)) }
    ensures damaged { V.tells → (damage : Damage) → IsErrOf result (LogRefused.Damaged damage) → IsChannelDamage words.now.channel (reads (V.disk volume.old)) damage }
    ensures syncs { V.tells → OnlySyncs (IsChannelFile words.now.channel) (V.disk volume.old) (V.disk volume.new) }
    ensures follows { V.follows volume.old volume.new }
    ensures store { IsErrOf result LogRefused.Store → Rose (V.faults volume.old) (V.faults volume.new) }
    ensures kept { IsErrOf result LogRefused.Store ⊎ (V.faults volume.new ≡ V.faults volume.old) }
    ensures write { IsErrOf result LogRefused.Write → Rose (O.faults output.old) (O.faults output.new) }
    ensures written { IsErrOf result LogRefused.Write ⊎ (O.faults output.new ≡ O.faults output.old) }
{
    forms_share_no_file::<Log>();
    match volume.root(words.folder) {
        Ok(()) => write_channel::<Log, Log, V, O>(alloc, volume, &words.channel, output),
        Err(Failed) => Err(LogRefused::Store),
    }
}
