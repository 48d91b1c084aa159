ghost use Rattle.std.specs.Prelude.{◌≡◌, ◌≢◌, ◌<◌, ◌⊎◌, ◌++◌, List, ℕ, map, string_bytes, IfSome, IsSomeAnd};
ghost use Rattle.std.specs.Io.KnownBytes.{IsAtEnd};
ghost use Rattle.pad_edge.specs.Count.{Rose};
ghost use Rattle.pad_edge.specs.declared.port_event.PortEvent.{PortEvent};
ghost use Rattle.pad_output.specs.Output.{AppendsSome};
ghost use Rattle.disk_volume.specs.Disk.{AtRest, reads};
ghost use Rattle.disk_volume.specs.Moments.{OnlySyncs};
ghost use Rattle.log_format.specs.declared.damage.Damage.{Damage};
ghost use Rattle.netflux_core.specs.Runs.{IsOwned};
ghost use Rattle.pad_serve.specs.Leaves.{Stays};
ghost use Rattle.serve_loop.specs.Run.{AreCalls};
ghost use Rattle.pad_top.specs.Client.{IsScriptDone, IsScriptStopped, ClientEnds, ClientIsCutShort, IsShortScript};
ghost use Rattle.pad_top.specs.Generate.{GenerateEnds, GenerateIsCutShort};
ghost use Rattle.pad_top.specs.Log.{IsChannelDamage, IsChannelFile, LogEnds, LogIsCutShort};
ghost use Rattle.pad_top.specs.Replay.{IsReplayed, IsPastLimit};
ghost use Rattle.pad_top.specs.Run.{Ends, IsCutShort};
ghost use Rattle.pad_top.specs.Serve.{channel_logs, HasStopped, IsDone, ServeEnds, ServeIsCutShort};
ghost use Rattle.pad_top.specs.Words.{IsReplay, IsLog, IsServe, IsGenerate, AsksClient, AsksGenerate, AsksNoFolder, AsksNoOther, AsksServe};

use crate::client::client;
use crate::end::end;
use crate::generate::generate;
use crate::log::log;
use crate::replay::replay;
use crate::serve::serve;
use crate::status::Status;
use crate::words::{client_address, generate_words, is_replay, log_words, serve_words};
use disk_volume::Volume;
use pad_edge::{Clock, Link, Port, Sink, Source};
use std::alloc::Global;
use std::marker::Brand;
use std::sync::ledger::Blank;

/// Runs the command that the words ask for, over what comes in, what goes out, files, a port, a link and a clock, and tells how that ended.
///
/// `replay` reads contents, one a line, and writes the report of the best chain of the messages that they spell.
/// `log FOLDER CHANNEL` writes the entries of a channel, one a line, and how many there are. It changes no file.
/// `serve ADDRESS FOLDER TURNS` serves the channels of a folder at an address, for so many turns or until the port ended, and writes
/// how many turns it made. Its identities come of the key.
/// `client ADDRESS` reads a script, connects to the server at an address and carries the script out, and writes what that says.
/// `generate NUMBER COUNT` generates so many messages of a number and writes their report without its text.
pub fn run<I: Source, O: Sink, V: Volume, P: Port, L: Link, C: Clock>(
    alloc: Global,
    words: &[String],
    input: &mut I,
    output: &mut O,
    volume: &mut V,
    port: &mut P,
    link: &mut L,
    clock: &mut C,
    key: [u8; 32],
) -> Status
    // To serve, nothing is pending on the files.
    requires rests { AsksServe (map string_bytes words.now) → V.tells → (file : List ℕ) → AtRest (V.disk volume.old) file }

    // Done to its end, a replay has written the report of what the lines of its whole input read as.
    ensures report { IsReplay (map string_bytes words.now) → result ≡ Status.Ok → IfSome (I.left input.old) (λ bytes.
        AppendsSome (IsReplayed bytes) (O.written output.old) (O.written output.new)) }
    ensures ended { IsReplay (map string_bytes words.now) → result ≡ Status.Ok → IsAtEnd (I.left input.new) }

    // How it ends: each status comes where `Ends` says so, with all written that is said there. After a failed write a
    // part from the front of that is written.
    ensures whole { AsksNoOther (map string_bytes words.now) → result ≢ Status.WriteFault →
        let read_failed = Rose (I.faults input.old) (I.faults input.new) in
        AppendsSome (Ends (map string_bytes words.now) (I.left input.old) read_failed result)
        (O.written output.old) (O.written output.new) }
    ensures part { AsksNoOther (map string_bytes words.now) → result ≡ Status.WriteFault →
        let read_failed = Rose (I.faults input.old) (I.faults input.new) in
        IsCutShort (map string_bytes words.now) (I.left input.old) read_failed
        (O.written output.old) (O.written output.new) }

    // A log ends where `LogEnds` says so, with what is said there written; by the channel's files where the volume tells them.
    ensures log { (channel : List ℕ) → IsLog (map string_bytes words.now) channel → result ≢ Status.WriteFault →
        let store_failed = Rose (V.faults volume.old) (V.faults volume.new) in
        AppendsSome (LogEnds channel V.tells (reads (V.disk volume.old)) store_failed result) (O.written output.old) (O.written output.new) }
    ensures log_part { (channel : List ℕ) → IsLog (map string_bytes words.now) channel → result ≡ Status.WriteFault →
        let store_failed = Rose (V.faults volume.old) (V.faults volume.new) in
        LogIsCutShort channel V.tells (reads (V.disk volume.old)) store_failed (O.written output.old) (O.written output.new) }

    // Serving ends where `ServeEnds` says so, with what is said there written, sent and left in the files. It makes so many calls of `next` at most.
    ensures serve { (address folder : List ℕ) (turns : ℕ) → IsServe (map string_bytes words.now) address folder turns → result ≢ Status.WriteFault →
        let done = IsDone key turns (Rose (P.ends port.old) (P.ends port.new)) V.tells P.tells C.tells (V.disk volume.old) (V.disk volume.new) (V.faults volume.old) (V.faults volume.new)
        (C.coming clock.old) (P.events port.old) (P.events port.new) (P.sent port.old) (P.sent port.new) (P.failed port.old) (P.failed port.new) in
        let stopped = HasStopped key turns V.tells P.tells C.tells (V.disk volume.old) (V.disk volume.new) (V.faults volume.old) (V.faults volume.new)
        (C.coming clock.old) (P.events port.old) (P.events port.new) (P.sent port.old) (P.sent port.new) (P.failed port.old) (P.failed port.new) in
        let store_failed = Rose (V.faults volume.old) (V.faults volume.new) in let link_failed = Rose (P.faults port.old) (P.faults port.new) in
        AppendsSome (ServeEnds done stopped store_failed link_failed result) (O.written output.old) (O.written output.new) }
    ensures serve_part { (address folder : List ℕ) (turns : ℕ) → IsServe (map string_bytes words.now) address folder turns → result ≡ Status.WriteFault →
        let done = IsDone key turns (Rose (P.ends port.old) (P.ends port.new)) V.tells P.tells C.tells (V.disk volume.old) (V.disk volume.new) (V.faults volume.old) (V.faults volume.new)
        (C.coming clock.old) (P.events port.old) (P.events port.new) (P.sent port.old) (P.sent port.new) (P.failed port.old) (P.failed port.new) in
        let stopped = HasStopped key turns V.tells P.tells C.tells (V.disk volume.old) (V.disk volume.new) (V.faults volume.old) (V.faults volume.new)
        (C.coming clock.old) (P.events port.old) (P.events port.new) (P.sent port.old) (P.sent port.new) (P.failed port.old) (P.failed port.new) in
        let store_failed = Rose (V.faults volume.old) (V.faults volume.new) in let link_failed = Rose (P.faults port.old) (P.faults port.new) in
        ServeIsCutShort done stopped store_failed link_failed (O.written output.old) (O.written output.new) }
    ensures calls { P.tells → (address folder : List ℕ) (turns : ℕ) → IsServe (map string_bytes words.now) address folder turns →
        (events : List PortEvent) × (P.events port.new ≡ P.events port.old ++ events) × AreCalls turns events }

    // A client ends where `ClientEnds` says so, with what is said there written and sent. Done to its end, it has read its whole input.
    ensures client { AsksClient (map string_bytes words.now) → result ≢ Status.WriteFault →
        let done = IsScriptDone (I.left input.old) L.tells (L.heard link.old) (L.heard link.new) (L.sent link.old) (L.sent link.new) in
        let stopped = IsScriptStopped (I.left input.old) L.tells (L.heard link.old) (L.heard link.new) (L.sent link.old) (L.sent link.new) in
        let read_failed = Rose (I.faults input.old) (I.faults input.new) in
        let link_failed = Rose (L.faults link.old) (L.faults link.new) in let link_ended = Rose (L.ends link.old) (L.ends link.new) in
        AppendsSome (ClientEnds (I.left input.old) done stopped (link.new ≡ link.old) read_failed link_failed link_ended result) (O.written output.old) (O.written output.new) }
    ensures client_part { AsksClient (map string_bytes words.now) → result ≡ Status.WriteFault →
        let done = IsScriptDone (I.left input.old) L.tells (L.heard link.old) (L.heard link.new) (L.sent link.old) (L.sent link.new) in
        let stopped = IsScriptStopped (I.left input.old) L.tells (L.heard link.old) (L.heard link.new) (L.sent link.old) (L.sent link.new) in
        let read_failed = Rose (I.faults input.old) (I.faults input.new) in
        let link_failed = Rose (L.faults link.old) (L.faults link.new) in let link_ended = Rose (L.ends link.old) (L.ends link.new) in
        ClientIsCutShort (I.left input.old) done stopped (link.new ≡ link.old) read_failed link_failed link_ended (O.written output.old) (O.written output.new) }
    ensures client_ended { AsksClient (map string_bytes words.now) → result ≡ Status.Ok → IsAtEnd (I.left input.new) }

    // Generating ends where `GenerateEnds` says so, with what is said there written.
    ensures generate { (number count : ℕ) → IsGenerate (map string_bytes words.now) number count → result ≢ Status.WriteFault →
        AppendsSome (GenerateEnds number count result) (O.written output.old) (O.written output.new) }
    ensures generate_part { (number count : ℕ) → IsGenerate (map string_bytes words.now) number count → result ≡ Status.WriteFault →
        GenerateIsCutShort number count (O.written output.old) (O.written output.new) }

    // It leaves files that are no channel's as they were, and port and clock where the folder could not be chosen.
    ensures others { AsksServe (map string_bytes words.now) → V.tells → (file : List ℕ) → (IsOwned channel_logs.owns file → ⊥)
        → Stays (V.disk volume.old) (V.disk volume.new) file }
    ensures root_failed { result ≡ Status.StoreFault → (port.new ≡ port.old) × (clock.new ≡ clock.old) }

    // Each fault has its cause.
    ensures write_fault { result ≡ Status.WriteFault → Rose (O.faults output.old) (O.faults output.new) }
    ensures store_fault { result ≡ Status.StoreFault → Rose (V.faults volume.old) (V.faults volume.new) }
    ensures link_fault { result ≡ Status.LinkFault → (AsksServe (map string_bytes words.now) × Rose (P.faults port.old) (P.faults port.new))
        ⊎ (AsksClient (map string_bytes words.now) × Rose (L.faults link.old) (L.faults link.new)) }
    ensures early { result ≡ Status.EndedEarly → AsksClient (map string_bytes words.now) × Rose (L.ends link.old) (L.ends link.new) }

    // Faults are told: a failed write before all else, and a failed read, a port or a link that failed or, but for a server, a failed call of the volume
    // where no write failed. So is a link that ended.
    ensures write_told { O.faults output.old < O.faults output.new → result ≡ Status.WriteFault }
    ensures read_told { I.faults input.old < I.faults input.new
        → (result ≡ Status.ReadFault) ⊎ (result ≡ Status.WriteFault) }
    ensures link_told { P.faults port.old < P.faults port.new
        → (result ≡ Status.LinkFault) ⊎ (result ≡ Status.WriteFault) }
    ensures client_told { L.faults link.old < L.faults link.new
        → (result ≡ Status.LinkFault) ⊎ (result ≡ Status.WriteFault) }
    ensures early_told { L.ends link.old < L.ends link.new
        → (result ≡ Status.EndedEarly) ⊎ (result ≡ Status.WriteFault) }
    ensures store_told { ¬ (AsksServe (map string_bytes words.now)) → V.faults volume.old < V.faults volume.new
        → (result ≡ Status.StoreFault) ⊎ (result ≡ Status.WriteFault) }

    // The input is a replay's and a client's alone, the link a client's, port and clock are a server's, and the folder is a server's and a log's, which only
    // syncs the files of its channel.
    ensures untouched { ¬ (IsReplay (map string_bytes words.now)) → ¬ (AsksClient (map string_bytes words.now)) → input.new ≡ input.old }
    ensures link_untouched { ¬ (AsksClient (map string_bytes words.now)) → link.new ≡ link.old }
    ensures port_untouched { ¬ (AsksServe (map string_bytes words.now)) → port.new ≡ port.old }
    ensures clock_untouched { ¬ (AsksServe (map string_bytes words.now)) → clock.new ≡ clock.old }
    ensures volume_untouched { AsksNoFolder (map string_bytes words.now) → volume.new ≡ volume.old }
    ensures syncs { V.tells → (channel : List ℕ) → IsLog (map string_bytes words.now) channel →
        OnlySyncs (IsChannelFile channel) (V.disk volume.old) (V.disk volume.new) }
    ensures follows { V.follows volume.old volume.new }

    // A replay of an input that is past no limit is done to its end, or wants memory.
    ensures complete { IsReplay (map string_bytes words.now) → IsSomeAnd (I.left input.old) (λ bytes. ¬ (IsPastLimit bytes))
        → ¬ (Rose (I.faults input.old) (I.faults input.new)) → ¬ (Rose (O.faults output.old) (O.faults output.new))
        → (result ≡ Status.Ok) ⊎ (result ≡ Status.NoMemory) }

    // A log without a failure is done to its end, or wants memory, or is damaged: by its files where the volume tells them.
    ensures log_complete { (channel : List ℕ) → IsLog (map string_bytes words.now) channel
        → ¬ (Rose (V.faults volume.old) (V.faults volume.new)) → ¬ (Rose (O.faults output.old) (O.faults output.new))
        → (result ≡ Status.Ok) ⊎ ((result ≡ Status.NoMemory) ⊎ ((result ≡ Status.Damaged)
        × (V.tells → (damage : Damage) × IsChannelDamage channel (reads (V.disk volume.old)) damage))) }

    // A server without a failure is done to its end, or wants memory.
    ensures serve_complete { AsksServe (map string_bytes words.now) → ¬ (Rose (V.faults volume.old) (V.faults volume.new))
        → ¬ (Rose (P.faults port.old) (P.faults port.new)) → ¬ (Rose (O.faults output.old) (O.faults output.new))
        → (result ≡ Status.Ok) ⊎ (result ≡ Status.NoMemory) }

    // And so is generating.
    ensures generate_complete { AsksGenerate (map string_bytes words.now) → ¬ (Rose (O.faults output.old) (O.faults output.new))
        → (result ≡ Status.Ok) ⊎ (result ≡ Status.NoMemory) }

    // A client without a failure, whose input is a script and whose link does not end, is done to its end, or wants memory, or would know too many names.
    ensures client_complete { AsksClient (map string_bytes words.now) → IsSomeAnd (I.left input.old) IsShortScript
        → ¬ (Rose (I.faults input.old) (I.faults input.new)) → ¬ (Rose (L.faults link.old) (L.faults link.new)) → ¬ (Rose (L.ends link.old) (L.ends link.new))
        → ¬ (Rose (O.faults output.old) (O.faults output.new)) → (result ≡ Status.Ok) ⊎ ((result ≡ Status.NoMemory) ⊎ (result ≡ Status.Limit)) }
{
    if is_replay(words) {
        return run_replay(alloc, input, output);
    }
    if let Some(words) = serve_words(words) {
        return serve(alloc, &words, output, volume, port, clock, key);
    }
    if let Some(address) = client_address(words) {
        return client(alloc, address, input, output, link);
    }
    match log_words(words) {
        Some(words) => log(alloc, &words, output, volume),
        None => match generate_words(words) {
            Some(words) => generate(alloc, words, output),
            None => end(output, Status::Usage.line(), Status::Usage),
        },
    }
}

/// Writes the report of a replay, or the line that tells why there is none.
fn run_replay<I: Source, O: Sink>(alloc: Global, input: &mut I, output: &mut O) -> Status
    ensures report { result ≡ Status.Ok → IfSome (I.left input.old) (λ bytes.
        AppendsSome (IsReplayed bytes) (O.written output.old) (O.written output.new)) }
    ensures ended { result ≡ Status.Ok → IsAtEnd (I.left input.new) }
    ensures whole { (words : List (List ℕ)) → IsReplay words → result ≢ Status.WriteFault →
        let read_failed = Rose (I.faults input.old) (I.faults input.new) in
        AppendsSome (Ends words (I.left input.old) read_failed result) (O.written output.old) (O.written output.new) }
    ensures part { (words : List (List ℕ)) → IsReplay words → result ≡ Status.WriteFault →
        let read_failed = Rose (I.faults input.old) (I.faults input.new) in
        IsCutShort words (I.left input.old) read_failed (O.written output.old) (O.written output.new) }
    ensures write_fault { result ≡ Status.WriteFault → Rose (O.faults output.old) (O.faults output.new) }
    ensures no_store { result ≢ Status.StoreFault }
    ensures no_link { (result ≢ Status.LinkFault) × (result ≢ Status.EndedEarly) }
    ensures write_told { O.faults output.old < O.faults output.new → result ≡ Status.WriteFault }
    ensures read_told { I.faults input.old < I.faults input.new
        → (result ≡ Status.ReadFault) ⊎ (result ≡ Status.WriteFault) }
    ensures complete { IsSomeAnd (I.left input.old) (λ bytes. ¬ (IsPastLimit bytes))
        → ¬ (Rose (I.faults input.old) (I.faults input.new)) → ¬ (Rose (O.faults output.old) (O.faults output.new))
        → (result ≡ Status.Ok) ⊎ (result ≡ Status.NoMemory) }
{
    match replay::<I, Brand>(alloc, input, Blank::new(1)) {
        Ok(report) => end(output, report.as_bytes(), Status::Ok),
        Err(refused) => {
            let status = refused.status();
            end(output, status.line(), status)
        }
    }
}
