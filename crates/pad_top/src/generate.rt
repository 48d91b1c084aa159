ghost use Rattle.std.specs.Prelude.{◌≡◌, ◌≢◌, ◌<◌, ◌≤◌, ◌⊎◌};
ghost use Rattle.pad_edge.specs.Count.{Rose};
ghost use Rattle.pad_generator.specs.declared.generator.TheConstants.{MOST_MESSAGES};
ghost use Rattle.pad_output.specs.Output.{AppendsSome};
ghost use Rattle.pad_top.specs.Generate.{GenerateEnds, GenerateIsCutShort};

use crate::status::Status;
use crate::words::GenerateWords;
use pad_edge::Sink;
use pad_generate::{GenerateRefused, generate as generate_messages};
use std::alloc::Global;

/// Generates messages and writes a summary of them, and tells how that ended.
pub(crate) fn generate<O: Sink>(alloc: Global, words: GenerateWords, output: &mut O) -> Status
    requires some { 1 ≤ words.count }
    requires few { words.count ≤ MOST_MESSAGES }
    ensures whole { result ≢ Status.WriteFault → AppendsSome (GenerateEnds words.number words.count result) (O.written output.old) (O.written output.new) }
    ensures part { result ≡ Status.WriteFault → GenerateIsCutShort words.number words.count (O.written output.old) (O.written output.new) }
    ensures no_store { result ≢ Status.StoreFault }
    ensures no_link { result ≢ Status.LinkFault }
    ensures write_fault { result ≡ Status.WriteFault → Rose (O.faults output.old) (O.faults output.new) }
    ensures write_told { O.faults output.old < O.faults output.new → result ≡ Status.WriteFault }
    ensures complete { ¬ (Rose (O.faults output.old) (O.faults output.new)) → (result ≡ Status.Ok) ⊎ (result ≡ Status.NoMemory) }
{
    match generate_messages(alloc, words.number, words.count, output) {
        Ok(()) => Status::Ok,
        Err(GenerateRefused::Write) => Status::WriteFault,
        Err(GenerateRefused::NoMemory) => Status::NoMemory,
    }
}
