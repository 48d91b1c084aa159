ghost use Rattle.std.specs.Prelude.{◌≡◌, ◌≤◌, ◌⊎◌, ◌++◌, ℕ, List, IfOk, OnOk, OnErr, IsErrOf, string_bytes};
ghost use Rattle.std.specs.Io.KnownBytes.{Appends};
ghost use Rattle.pad_edge.specs.Count.{CountsIf, Rose};
ghost use Rattle.pad_edge.specs.declared.port_event.PortEvent.{PortEvent};
ghost use Rattle.pad_output.specs.Output.{AppendsPart};
ghost use Rattle.disk_volume.specs.Disk.{AtRest};
ghost use Rattle.netflux_core.specs.Channels.{no_channels};
ghost use Rattle.netflux_core.specs.Runs.{IsOwned};
ghost use Rattle.serve_loop.specs.Run.{AreCalls};
ghost use Rattle.pad_serve.specs.Ends.{IsServedBy, IsStoppedBy};
ghost use Rattle.pad_serve.specs.Leaves.{Stays};
ghost use Rattle.pad_serve.specs.Logs.{AreOfFiles};
ghost use Rattle.pad_serve.specs.Refused.{is_link};
ghost use Rattle.pad_serve.specs.Turns.{turns_text, IsMade};

use crate::refused::ServeRefused;
use crate::words::ServeWords;
use disk_volume::Volume;
use hub_server::Server;
use netflux_core::{Keep, stored_entries_stay, unfailing_runs_hold_all};
use pad_edge::{Clock, Failed, LinkRefused, Port, Sink};
use pad_output::write_all;
use serve_loop::serve as serve_port;
use std::alloc::{AllocError, Global};

/// Serves the channels of a folder at an address, for so many calls of `next` or until the port ended, and writes how many were made.
/// The keeper has loaded no channel yet. The identities are those of the key, 32 bytes. A send that fails never ends it.
pub fn serve<K: Keep + Drop, O: Sink, V: Volume, P: Port, C: Clock>(
    alloc: Global,
    words: &ServeWords<'_>,
    key: [u8; 32],
    keeper: K,
    output: &mut O,
    volume: &mut V,
    port: &mut P,
    clock: &mut C,
) -> Result<(), ServeRefused>
    // Nothing is pending on the files, and no channel is loaded.
    requires rests { V.tells → (file : List ℕ) → AtRest (V.disk volume.old) file }
    requires logs { AreOfFiles K.logs }
    requires sound { K.is_sound keeper }
    requires keeps { V.tells → K.keeps keeper no_channels (V.disk volume.old) }

    // Done to its end: this was written, and where the volume tells a run of the serve machine was done, on the files at entry.
    ensures served { OnOk result ((made : ℕ) × Appends (O.written output.old) (O.written output.new) (turns_text made)
        × IsMade words.now.turns (Rose (P.ends port.old) (P.ends port.new)) P.tells (P.events port.old) (P.events port.new) made
        × (V.tells → IsServedBy K.logs key (V.disk volume.old) (V.disk volume.new) (V.faults volume.old) (V.faults volume.new) words.now.turns made P.tells C.tells (C.coming clock.old)
        (P.events port.old) (P.events port.new) (P.sent port.old) (P.sent port.new) (P.failed port.old) (P.failed port.new))) }

    // Otherwise a run was begun, and stopped, also within an event.
    ensures stopped { V.tells → OnErr result (IsStoppedBy K.logs key (V.disk volume.old) (V.disk volume.new) (V.faults volume.old) (V.faults volume.new) words.now.turns P.tells C.tells (C.coming clock.old)
        (P.events port.old) (P.events port.new) (P.sent port.old) (P.sent port.new) (P.failed port.old) (P.failed port.new)) }
    ensures part { IsErrOf result ServeRefused.Write → (made : ℕ) × AppendsPart (O.written output.old) (O.written output.new) (turns_text made)
        × IsMade words.now.turns (Rose (P.ends port.old) (P.ends port.new)) P.tells (P.events port.old) (P.events port.new) made
        × (V.tells → IsServedBy K.logs key (V.disk volume.old) (V.disk volume.new) (V.faults volume.old) (V.faults volume.new) words.now.turns made P.tells C.tells (C.coming clock.old)
        (P.events port.old) (P.events port.new) (P.sent port.old) (P.sent port.new) (P.failed port.old) (P.failed port.new)) }
    ensures unwritten { OnErr result (IsErrOf result ServeRefused.Write ⊎ (output.new ≡ output.old)) }
    ensures calls { P.tells → (events : List PortEvent) × (P.events port.new ≡ P.events port.old ++ events) × AreCalls words.now.turns events }

    // Each cause, and what no step does.
    ensures store { IsErrOf result ServeRefused.Store → Rose (V.faults volume.old) (V.faults volume.new) × (port.new ≡ port.old) × (clock.new ≡ clock.old) }
    ensures link { CountsIf (is_link result) (P.faults port.old) (P.faults port.new) }
    ensures write { IsErrOf result ServeRefused.Write → Rose (O.faults output.old) (O.faults output.new) }
    ensures written { IsErrOf result ServeRefused.Write ⊎ (O.faults output.new ≡ O.faults output.old) }
    ensures others { V.tells → (file : List ℕ) → (IsOwned K.logs.owns file → ⊥) → Stays (V.disk volume.old) (V.disk volume.new) file }
    ensures follows { V.follows volume.old volume.new }
    ensures later { V.faults volume.old ≤ V.faults volume.new }
{
    K::crashes_leave_what_is_held();
    match volume.root(words.folder) {
        Ok(()) => serve_folder(alloc, words, key, keeper, output, volume, port, clock),
        Err(Failed) => Err(ServeRefused::Store),
    }
}

/// Serves the channels of the folder that was chosen.
fn serve_folder<K: Keep + Drop, O: Sink, V: Volume, P: Port, C: Clock>(
    alloc: Global,
    words: &ServeWords<'_>,
    key: [u8; 32],
    keeper: K,
    output: &mut O,
    volume: &mut V,
    port: &mut P,
    clock: &mut C,
) -> Result<(), ServeRefused>
    requires rests { V.tells → (file : List ℕ) → AtRest (V.disk volume.old) file }
    requires logs { AreOfFiles K.logs }
    requires sound { K.is_sound keeper }
    requires keeps { V.tells → K.keeps keeper no_channels (V.disk volume.old) }
    ensures served { OnOk result ((made : ℕ) × Appends (O.written output.old) (O.written output.new) (turns_text made)
        × IsMade words.now.turns (Rose (P.ends port.old) (P.ends port.new)) P.tells (P.events port.old) (P.events port.new) made
        × (V.tells → IsServedBy K.logs key (V.disk volume.old) (V.disk volume.new) (V.faults volume.old) (V.faults volume.new) words.now.turns made P.tells C.tells (C.coming clock.old)
        (P.events port.old) (P.events port.new) (P.sent port.old) (P.sent port.new) (P.failed port.old) (P.failed port.new))) }
    ensures stopped { V.tells → OnErr result (IsStoppedBy K.logs key (V.disk volume.old) (V.disk volume.new) (V.faults volume.old) (V.faults volume.new) words.now.turns P.tells C.tells (C.coming clock.old)
        (P.events port.old) (P.events port.new) (P.sent port.old) (P.sent port.new) (P.failed port.old) (P.failed port.new)) }
    ensures part { IsErrOf result ServeRefused.Write → (made : ℕ) × AppendsPart (O.written output.old) (O.written output.new) (turns_text made)
        × IsMade words.now.turns (Rose (P.ends port.old) (P.ends port.new)) P.tells (P.events port.old) (P.events port.new) made
        × (V.tells → IsServedBy K.logs key (V.disk volume.old) (V.disk volume.new) (V.faults volume.old) (V.faults volume.new) words.now.turns made P.tells C.tells (C.coming clock.old)
        (P.events port.old) (P.events port.new) (P.sent port.old) (P.sent port.new) (P.failed port.old) (P.failed port.new)) }
    ensures unwritten { OnErr result (IsErrOf result ServeRefused.Write ⊎ (output.new ≡ output.old)) }
    ensures calls { P.tells → (events : List PortEvent) × (P.events port.new ≡ P.events port.old ++ events) × AreCalls words.now.turns events }
    ensures no_store { IsErrOf result ServeRefused.Store → ⊥ }
    ensures link { CountsIf (is_link result) (P.faults port.old) (P.faults port.new) }
    ensures write { IsErrOf result ServeRefused.Write → Rose (O.faults output.old) (O.faults output.new) }
    ensures written { IsErrOf result ServeRefused.Write ⊎ (O.faults output.new ≡ O.faults output.old) }
    ensures others { V.tells → (file : List ℕ) → (IsOwned K.logs.owns file → ⊥) → Stays (V.disk volume.old) (V.disk volume.new) file }
    ensures follows { V.follows volume.old volume.new }
    ensures later { V.faults volume.old ≤ V.faults volume.new }
{
    match serve_address(alloc, words, key, keeper, volume, port, clock) {
        Ok(made) => write_turns(alloc, output, made),
        Err(refused) => Err(refused),
    }
}

/// Writes how many calls of `next` were made.
fn write_turns<O: Sink>(alloc: Global, output: &mut O, made: u64) -> Result<(), ServeRefused>
    ensures whole { OnOk result (Appends (O.written output.old) (O.written output.new) (turns_text made)) }
    ensures part { IsErrOf result ServeRefused.Write → AppendsPart (O.written output.old) (O.written output.new) (turns_text made) }
    ensures refused { OnErr result (IsErrOf result ServeRefused.Write ⊎ (IsErrOf result ServeRefused.NoMemory × (output.new ≡ output.old))) }
    ensures write { IsErrOf result ServeRefused.Write → Rose (O.faults output.old) (O.faults output.new) }
    ensures written { IsErrOf result ServeRefused.Write ⊎ (O.faults output.new ≡ O.faults output.old) }
{
    match turns_line(alloc, made) {
        Ok(line) => match write_all(output, line.as_bytes()) {
            Ok(()) => Ok(()),
            Err(Failed) => Err(ServeRefused::Write),
        },
        Err(_) => Err(ServeRefused::NoMemory),
    }
}

/// Listens and serves, and answers how many calls of `next` were made.
fn serve_address<K: Keep + Drop, V: Volume, P: Port, C: Clock>(
    alloc: Global,
    words: &ServeWords<'_>,
    key: [u8; 32],
    keeper: K,
    volume: &mut V,
    port: &mut P,
    clock: &mut C,
) -> Result<u64, ServeRefused>
    requires rests { V.tells → (file : List ℕ) → AtRest (V.disk volume.old) file }
    requires logs { AreOfFiles K.logs }
    requires sound { K.is_sound keeper }
    requires keeps { V.tells → K.keeps keeper no_channels (V.disk volume.old) }
    ensures served { V.tells → IfOk result (λ made. IsServedBy K.logs key (V.disk volume.old) (V.disk volume.new) (V.faults volume.old) (V.faults volume.new) words.now.turns made P.tells C.tells (C.coming clock.old)
        (P.events port.old) (P.events port.new) (P.sent port.old) (P.sent port.new) (P.failed port.old) (P.failed port.new)) }
    ensures stopped { V.tells → OnErr result (IsStoppedBy K.logs key (V.disk volume.old) (V.disk volume.new) (V.faults volume.old) (V.faults volume.new) words.now.turns P.tells C.tells (C.coming clock.old)
        (P.events port.old) (P.events port.new) (P.sent port.old) (P.sent port.new) (P.failed port.old) (P.failed port.new)) }
    ensures made { IfOk result (IsMade words.now.turns (Rose (P.ends port.old) (P.ends port.new)) P.tells (P.events port.old) (P.events port.new)) }
    ensures calls { P.tells → (events : List PortEvent) × (P.events port.new ≡ P.events port.old ++ events) × AreCalls words.now.turns events }
    ensures link { CountsIf (is_link result) (P.faults port.old) (P.faults port.new) }
    ensures refused { OnErr result (IsErrOf result ServeRefused.Link ⊎ IsErrOf result ServeRefused.NoMemory) }
    ensures others { V.tells → (file : List ℕ) → (IsOwned K.logs.owns file → ⊥) → Stays (V.disk volume.old) (V.disk volume.new) file }
    ensures follows { V.follows volume.old volume.new }
    ensures later { V.faults volume.old ≤ V.faults volume.new }
{
    K::crashes_leave_what_is_held();
    match port.listen(words.address) {
        Ok(()) => serve_clients(alloc, key, keeper, volume, port, clock, words.turns),
        Err(LinkRefused::Failed) => Err(ServeRefused::Link),
        Err(LinkRefused::NoMemory) => Err(ServeRefused::NoMemory),
    }
}

/// Serves a port that listens, and answers how many calls of `next` were made.
fn serve_clients<K: Keep + Drop, V: Volume, P: Port, C: Clock>(
    alloc: Global,
    key: [u8; 32],
    keeper: K,
    volume: &mut V,
    port: &mut P,
    clock: &mut C,
    turns: u64,
) -> Result<u64, ServeRefused>
    requires rests { V.tells → (file : List ℕ) → AtRest (V.disk volume.old) file }
    requires logs { AreOfFiles K.logs }
    requires sound { K.is_sound keeper }
    requires keeps { V.tells → K.keeps keeper no_channels (V.disk volume.old) }
    ensures served { V.tells → IfOk result (λ made. IsServedBy K.logs key (V.disk volume.old) (V.disk volume.new) (V.faults volume.old) (V.faults volume.new) turns made P.tells C.tells (C.coming clock.old)
        (P.events port.old) (P.events port.new) (P.sent port.old) (P.sent port.new) (P.failed port.old) (P.failed port.new)) }
    ensures stopped { V.tells → OnErr result (IsStoppedBy K.logs key (V.disk volume.old) (V.disk volume.new) (V.faults volume.old) (V.faults volume.new) turns P.tells C.tells (C.coming clock.old)
        (P.events port.old) (P.events port.new) (P.sent port.old) (P.sent port.new) (P.failed port.old) (P.failed port.new)) }
    ensures made { IfOk result (IsMade turns (Rose (P.ends port.old) (P.ends port.new)) P.tells (P.events port.old) (P.events port.new)) }
    ensures calls { P.tells → (events : List PortEvent) × (P.events port.new ≡ P.events port.old ++ events) × AreCalls turns events }
    ensures link { CountsIf (is_link result) (P.faults port.old) (P.faults port.new) }
    ensures refused { OnErr result (IsErrOf result ServeRefused.Link ⊎ IsErrOf result ServeRefused.NoMemory) }
    ensures others { V.tells → (file : List ℕ) → (IsOwned K.logs.owns file → ⊥) → Stays (V.disk volume.old) (V.disk volume.new) file }
    ensures follows { V.follows volume.old volume.new }
    ensures later { V.faults volume.old ≤ V.faults volume.new }
{
    K::crashes_leave_what_is_held();
    K::reads_what_is_held();
    stored_entries_stay::<K>();
    unfailing_runs_hold_all::<K>();
    let mut server = match Server::new(alloc, key, keeper) {
        Ok(server) => server,
        Err(_) => return Err(ServeRefused::NoMemory),
    };
    match serve_port(alloc, port, &mut server, volume, clock, turns) {
        Ok(made) => Ok(made),
        Err(LinkRefused::Failed) => Err(ServeRefused::Link),
        Err(LinkRefused::NoMemory) => Err(ServeRefused::NoMemory),
    }
}

/// The line that tells how many calls of `next` were made.
fn turns_line(alloc: Global, made: u64) -> Result<String, AllocError>
    ensures { IfOk result (λ line. string_bytes line ≡ turns_text made) }
{
    format!(in alloc; "turns {made}\n")
}
