ghost use Rattle.std.specs.Prelude.{◌≡◌, ◌≢◌, ◌<◌, ◌≤◌, ◌^◌, ◌⊎◌, ℕ, List, length, Option, IsSomeAnd, IfErr, OnOk};
ghost use Rattle.std.specs.Io.KnownBytes.{IsAtEnd};
ghost use Rattle.pad_conversation.specs.Refused.{is_link, is_ended, is_write};
ghost use Rattle.pad_edge.specs.Count.{CountsIf, Rose};
ghost use Rattle.pad_output.specs.Output.{AppendsSome};
ghost use Rattle.pad_script.specs.declared.act.Act.{Act};
ghost use Rattle.pad_script.specs.declared.command.Command.{Command};
ghost use Rattle.pad_script.specs.Act.{Says};
ghost use Rattle.pad_script.specs.Requests.{makes_requests, AreFew};
ghost use Rattle.pad_script.specs.Script.{IsScript};
ghost use Rattle.pad_top.specs.Client.{IsCarriedOut, IsCarriedOutInPart, IsScriptDone, IsScriptStopped, ClientEnds, ClientIsCutShort, IsShortScript};
ghost use Rattle.pad_top.specs.Input.{most_bytes};
ghost use Rattle.pad_top.specs.Inside.Ending.{IsEnd};
ghost use Rattle.pad_top.specs.Inside.Told.{IsToldAs};
ghost use Rattle.pad_top.specs.Status.{status_line};

use crate::end::end;
use crate::input::read_all;
use crate::status::Status;
use client_script::ScriptedClient;
use pad_conversation::{ConversationRefused, converse};
use pad_edge::{Link, LinkRefused, Sink, Source};
use pad_rope::Rope;
use pad_script::{Act, Command, ScriptRefused, read_script};
use std::alloc::Global;
use std::marker::Brand;
use std::sync::ledger::{Blank, Ledger};

/// Reads a script, connects to an address and carries the script out, and tells how that ended.
pub(crate) fn client<I: Source, O: Sink, K: Link>(
    alloc: Global,
    address: &str,
    input: &mut I,
    output: &mut O,
    link: &mut K,
) -> Status
    ensures whole { result ≢ Status.WriteFault →
        let done = IsScriptDone (I.left input.old) K.tells (K.heard link.old) (K.heard link.new) (K.sent link.old) (K.sent link.new) in
        let stopped = IsScriptStopped (I.left input.old) K.tells (K.heard link.old) (K.heard link.new) (K.sent link.old) (K.sent link.new) in
        let read_failed = Rose (I.faults input.old) (I.faults input.new) in
        let link_failed = Rose (K.faults link.old) (K.faults link.new) in let link_ended = Rose (K.ends link.old) (K.ends link.new) in
        AppendsSome (ClientEnds (I.left input.old) done stopped (link.new ≡ link.old) read_failed link_failed link_ended result) (O.written output.old) (O.written output.new) }
    ensures part { result ≡ Status.WriteFault →
        let done = IsScriptDone (I.left input.old) K.tells (K.heard link.old) (K.heard link.new) (K.sent link.old) (K.sent link.new) in
        let stopped = IsScriptStopped (I.left input.old) K.tells (K.heard link.old) (K.heard link.new) (K.sent link.old) (K.sent link.new) in
        let read_failed = Rose (I.faults input.old) (I.faults input.new) in
        let link_failed = Rose (K.faults link.old) (K.faults link.new) in let link_ended = Rose (K.ends link.old) (K.ends link.new) in
        ClientIsCutShort (I.left input.old) done stopped (link.new ≡ link.old) read_failed link_failed link_ended (O.written output.old) (O.written output.new) }
    ensures ended { result ≡ Status.Ok → IsAtEnd (I.left input.new) }
    ensures no_store { result ≢ Status.StoreFault }
    ensures link_fault { result ≡ Status.LinkFault → Rose (K.faults link.old) (K.faults link.new) }
    ensures link_told { K.faults link.old < K.faults link.new → (result ≡ Status.LinkFault) ⊎ (result ≡ Status.WriteFault) }
    ensures early { result ≡ Status.EndedEarly → Rose (K.ends link.old) (K.ends link.new) }
    ensures early_told { K.ends link.old < K.ends link.new → (result ≡ Status.EndedEarly) ⊎ (result ≡ Status.WriteFault) }
    ensures read_told { I.faults input.old < I.faults input.new → (result ≡ Status.ReadFault) ⊎ (result ≡ Status.WriteFault) }
    ensures write_fault { result ≡ Status.WriteFault → Rose (O.faults output.old) (O.faults output.new) }
    ensures write_told { O.faults output.old < O.faults output.new → result ≡ Status.WriteFault }
    ensures complete { IsSomeAnd (I.left input.old) IsShortScript
        → ¬ (Rose (I.faults input.old) (I.faults input.new)) → ¬ (Rose (K.faults link.old) (K.faults link.new)) → ¬ (Rose (K.ends link.old) (K.ends link.new))
        → ¬ (Rose (O.faults output.old) (O.faults output.new)) → (result ≡ Status.Ok) ⊎ ((result ≡ Status.NoMemory) ⊎ (result ≡ Status.Limit)) }
{
    match read_all(alloc, input) {
        Ok(bytes) => run_script(alloc, address, bytes.as_slice(), output, link),
        Err(refused) => {
            let status = refused.status();
            end(output, status.line(), status)
        }
    }
}

/// Carries out the script that these bytes are, and tells how that ended.
fn run_script<O: Sink, K: Link>(
    alloc: Global,
    address: &str,
    bytes: &[u8],
    output: &mut O,
    link: &mut K,
) -> Status
    requires within { length bytes.now ≤ most_bytes }
    ensures whole { (input : Option (List ℕ)) → IsToldAs input bytes.now → result ≢ Status.WriteFault →
        let done = IsScriptDone input K.tells (K.heard link.old) (K.heard link.new) (K.sent link.old) (K.sent link.new) in
        let stopped = IsScriptStopped input K.tells (K.heard link.old) (K.heard link.new) (K.sent link.old) (K.sent link.new) in
        let link_failed = Rose (K.faults link.old) (K.faults link.new) in let link_ended = Rose (K.ends link.old) (K.ends link.new) in
        AppendsSome (ClientEnds input done stopped (link.new ≡ link.old) ⊥ link_failed link_ended result) (O.written output.old) (O.written output.new) }
    ensures part { (input : Option (List ℕ)) → IsToldAs input bytes.now → result ≡ Status.WriteFault →
        let done = IsScriptDone input K.tells (K.heard link.old) (K.heard link.new) (K.sent link.old) (K.sent link.new) in
        let stopped = IsScriptStopped input K.tells (K.heard link.old) (K.heard link.new) (K.sent link.old) (K.sent link.new) in
        let link_failed = Rose (K.faults link.old) (K.faults link.new) in let link_ended = Rose (K.ends link.old) (K.ends link.new) in
        ClientIsCutShort input done stopped (link.new ≡ link.old) ⊥ link_failed link_ended (O.written output.old) (O.written output.new) }
    ensures no_store { (result ≢ Status.StoreFault) × (result ≢ Status.ReadFault) }
    ensures link_fault { result ≡ Status.LinkFault → Rose (K.faults link.old) (K.faults link.new) }
    ensures link_told { K.faults link.old < K.faults link.new → (result ≡ Status.LinkFault) ⊎ (result ≡ Status.WriteFault) }
    ensures early { result ≡ Status.EndedEarly → Rose (K.ends link.old) (K.ends link.new) }
    ensures early_told { K.ends link.old < K.ends link.new → (result ≡ Status.EndedEarly) ⊎ (result ≡ Status.WriteFault) }
    ensures write_fault { result ≡ Status.WriteFault → Rose (O.faults output.old) (O.faults output.new) }
    ensures write_told { O.faults output.old < O.faults output.new → result ≡ Status.WriteFault }
    ensures complete { (commands : List (Command Act)) → IsScript Says bytes.now commands
        → ¬ (Rose (K.faults link.old) (K.faults link.new)) → ¬ (Rose (K.ends link.old) (K.ends link.new))
        → ¬ (Rose (O.faults output.old) (O.faults output.new)) → (result ≡ Status.Ok) ⊎ ((result ≡ Status.NoMemory) ⊎ (result ≡ Status.Limit)) }
{
    let commands = match read_script(alloc, bytes) {
        Ok(commands) => commands,
        Err(ScriptRefused::BadLine(number)) => return end_bad_script(alloc, output, number),
        Err(ScriptRefused::NoMemory(_)) => return Status::NoMemory,
    };
    match run_commands(alloc, address, commands.as_slice(), output, link) {
        Ok(()) => Status::Ok,
        Err(ConversationRefused::Write) => Status::WriteFault,
        Err(ConversationRefused::NoMemory) => Status::NoMemory,
        Err(ConversationRefused::Link) => end(output, Status::LinkFault.line(), Status::LinkFault),
        Err(ConversationRefused::Ended) => {
            end(output, Status::EndedEarly.line(), Status::EndedEarly)
        }
        Err(ConversationRefused::Full) => end(output, Status::Limit.line(), Status::Limit),
    }
}

/// Writes which line of a script is outside the grammar.
fn end_bad_script<O: Sink>(alloc: Global, output: &mut O, number: u64) -> Status
    ensures told { O.faults output.old < O.faults output.new → result ≡ Status.WriteFault }
    ensures end { let write_failed = Rose (O.faults output.old) (O.faults output.new) in
        ((result ≡ Status.NoMemory) × (output.new ≡ output.old))
        ⊎ IsEnd (O.written output.old) (O.written output.new) write_failed (status_line (Status.BadScript number)) (Status.BadScript number) result }
{
    match format!(in alloc; "bad script line {number}\n") {
        Ok(line) => end(output, line.as_bytes(), Status::BadScript(number)),
        Err(_) => Status::NoMemory,
    }
}

/// Connects to an address, and carries out commands.
fn run_commands<O: Sink, K: Link>(
    alloc: Global,
    address: &str,
    commands: &[Command<Act>],
    output: &mut O,
    link: &mut K,
) -> Result<(), ConversationRefused>
    requires script { (bytes : List ℕ) × IsScript Says bytes commands.now × AreFew makes_requests bytes commands.now × (length bytes ≤ 2 ^ 28) }
    ensures done { OnOk result (AppendsSome (IsCarriedOut commands.now K.tells (K.heard link.old) (K.heard link.new) (K.sent link.old) (K.sent link.new))
        (O.written output.old) (O.written output.new)) }
    ensures stopped { IfErr result (λ refused. AppendsSome (IsCarriedOutInPart commands.now K.tells (K.heard link.old) (K.heard link.new) (K.sent link.old) (K.sent link.new) refused)
        (O.written output.old) (O.written output.new)) }
    ensures link { CountsIf (is_link result) (K.faults link.old) (K.faults link.new) }
    ensures ended { CountsIf (is_ended result) (K.ends link.old) (K.ends link.new) }
    ensures write { CountsIf (is_write result) (O.faults output.old) (O.faults output.new) }
{
    match link.dial(address) {
        Ok(()) => carry_out::<O, K, Brand>(alloc, commands, output, link, Blank::new(1)),
        Err(LinkRefused::Failed) => Err(ConversationRefused::Link),
        Err(LinkRefused::NoMemory) => Err(ConversationRefused::NoMemory),
    }
}

/// Carries out commands over a link that was dialled. The steps that the client takes are counted in the ledger.
fn carry_out<O: Sink, K: Link, L: Ledger>(
    alloc: Global,
    commands: &[Command<Act>],
    output: &mut O,
    link: &mut K,
    blank: Blank,
) -> Result<(), ConversationRefused>
    requires name { blank.name ≡ L.name }
    requires parts { blank.parts ≡ L.parts }
    requires some { 0 < blank.parts }
    requires script { (bytes : List ℕ) × IsScript Says bytes commands.now × AreFew makes_requests bytes commands.now × (length bytes ≤ 2 ^ 28) }
    ensures done { OnOk result (AppendsSome (IsCarriedOut commands.now K.tells (K.heard link.old) (K.heard link.new) (K.sent link.old) (K.sent link.new))
        (O.written output.old) (O.written output.new)) }
    ensures stopped { IfErr result (λ refused. AppendsSome (IsCarriedOutInPart commands.now K.tells (K.heard link.old) (K.heard link.new) (K.sent link.old) (K.sent link.new) refused)
        (O.written output.old) (O.written output.new)) }
    ensures link { CountsIf (is_link result) (K.faults link.old) (K.faults link.new) }
    ensures ended { CountsIf (is_ended result) (K.ends link.old) (K.ends link.new) }
    ensures write { CountsIf (is_write result) (O.faults output.old) (O.faults output.new) }
{
    let Ok(mut client) = ScriptedClient::<Rope, L>::new(alloc, blank) else {
        return Err(ConversationRefused::NoMemory);
    };
    converse(alloc, commands, &mut client, link, output)
}
