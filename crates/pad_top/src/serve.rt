ghost use Rattle.std.specs.Prelude.{◌≡◌, ◌≢◌, ◌<◌, ◌⊎◌, ◌++◌, ℕ, List};
ghost use Rattle.pad_edge.specs.Count.{Rose};
ghost use Rattle.pad_edge.specs.declared.port_event.PortEvent.{PortEvent};
ghost use Rattle.pad_output.specs.Output.{AppendsSome};
ghost use Rattle.disk_volume.specs.Disk.{AtRest};
ghost use Rattle.netflux_core.specs.Runs.{IsOwned};
ghost use Rattle.pad_serve.specs.Leaves.{Stays};
ghost use Rattle.serve_loop.specs.Run.{AreCalls};
ghost use Rattle.pad_top.specs.Serve.{channel_logs, HasStopped, IsDone, ServeEnds, ServeIsCutShort};

use crate::end::end;
use crate::status::Status;
use disk_volume::Volume;
use gated_log::Log;
use hub_keeper::{HubKeeper, logs_are_apart, logs_are_of_files};
use pad_edge::{Clock, Port, Sink};
use pad_serve::{ServeRefused, ServeWords, serve as serve_channels};
use std::alloc::Global;

/// Serves the channels of a folder at an address, and tells how that ended.
pub(crate) fn serve<O: Sink, V: Volume, P: Port, C: Clock>(
    alloc: Global,
    words: &ServeWords<'_>,
    output: &mut O,
    volume: &mut V,
    port: &mut P,
    clock: &mut C,
    key: [u8; 32],
) -> Status
    requires rests { V.tells → (file : List ℕ) → AtRest (V.disk volume.old) file }
    ensures whole { result ≢ Status.WriteFault →
        let done = IsDone key words.now.turns (Rose (P.ends port.old) (P.ends port.new)) V.tells P.tells C.tells (V.disk volume.old) (V.disk volume.new) (V.faults volume.old) (V.faults volume.new)
        (C.coming clock.old) (P.events port.old) (P.events port.new) (P.sent port.old) (P.sent port.new) (P.failed port.old) (P.failed port.new) in
        let stopped = HasStopped key words.now.turns V.tells P.tells C.tells (V.disk volume.old) (V.disk volume.new) (V.faults volume.old) (V.faults volume.new)
        (C.coming clock.old) (P.events port.old) (P.events port.new) (P.sent port.old) (P.sent port.new) (P.failed port.old) (P.failed port.new) in
        let store_failed = Rose (V.faults volume.old) (V.faults volume.new) in let link_failed = Rose (P.faults port.old) (P.faults port.new) in
        AppendsSome (ServeEnds done stopped store_failed link_failed result) (O.written output.old) (O.written output.new) }
    ensures part { result ≡ Status.WriteFault →
        let done = IsDone key words.now.turns (Rose (P.ends port.old) (P.ends port.new)) V.tells P.tells C.tells (V.disk volume.old) (V.disk volume.new) (V.faults volume.old) (V.faults volume.new)
        (C.coming clock.old) (P.events port.old) (P.events port.new) (P.sent port.old) (P.sent port.new) (P.failed port.old) (P.failed port.new) in
        let stopped = HasStopped key words.now.turns V.tells P.tells C.tells (V.disk volume.old) (V.disk volume.new) (V.faults volume.old) (V.faults volume.new)
        (C.coming clock.old) (P.events port.old) (P.events port.new) (P.sent port.old) (P.sent port.new) (P.failed port.old) (P.failed port.new) in
        let store_failed = Rose (V.faults volume.old) (V.faults volume.new) in let link_failed = Rose (P.faults port.old) (P.faults port.new) in
        ServeIsCutShort done stopped store_failed link_failed (O.written output.old) (O.written output.new) }
    ensures calls { P.tells → (events : List PortEvent) × (P.events port.new ≡ P.events port.old ++ events) × AreCalls words.now.turns events }
    ensures others { V.tells → (file : List ℕ) → (IsOwned channel_logs.owns file → ⊥) → Stays (V.disk volume.old) (V.disk volume.new) file }
    ensures root_failed { result ≡ Status.StoreFault → (port.new ≡ port.old) × (clock.new ≡ clock.old) }
    ensures follows { V.follows volume.old volume.new }
    ensures store_fault { result ≡ Status.StoreFault → Rose (V.faults volume.old) (V.faults volume.new) }
    ensures link_fault { result ≡ Status.LinkFault → Rose (P.faults port.old) (P.faults port.new) }
    ensures link_told { P.faults port.old < P.faults port.new → (result ≡ Status.LinkFault) ⊎ (result ≡ Status.WriteFault) }
    ensures write_fault { result ≡ Status.WriteFault → Rose (O.faults output.old) (O.faults output.new) }
    ensures write_told { O.faults output.old < O.faults output.new → result ≡ Status.WriteFault }
    ensures complete { ¬ (Rose (V.faults volume.old) (V.faults volume.new)) → ¬ (Rose (P.faults port.old) (P.faults port.new)) → ¬ (Rose (O.faults output.old) (O.faults output.new))
        → (result ≡ Status.Ok) ⊎ (result ≡ Status.NoMemory) }
{
    logs_are_apart::<Log>();
    logs_are_of_files::<Log, Log>();
    let keeper: HubKeeper<Log, Log> = HubKeeper::new(alloc);
    match serve_channels(alloc, words, key, keeper, output, volume, port, clock) {
        Ok(()) => Status::Ok,
        Err(ServeRefused::Write) => Status::WriteFault,
        Err(ServeRefused::NoMemory) => Status::NoMemory,
        Err(ServeRefused::Store) => end(output, Status::StoreFault.line(), Status::StoreFault),
        Err(ServeRefused::Link) => end(output, Status::LinkFault.line(), Status::LinkFault),
    }
}
