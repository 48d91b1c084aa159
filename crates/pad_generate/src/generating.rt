ghost use Rattle.std.specs.Prelude.{◌≡◌, ◌≤◌, ◌<◌, ◌⊎◌, ◌++◌, IfOk, OnOk, OnErr, IsErrOf, decimal, string_bytes};
ghost use Rattle.pad_edge.specs.Count.{Rose};
ghost use Rattle.pad_output.specs.Output.{AppendsSome, AppendsPartOfSome};
ghost use Rattle.pad_model.specs.Report.{line};
ghost use Rattle.pad_generator.specs.declared.generator.TheConstants.{MOST_MESSAGES};
ghost use Rattle.pad_generator.specs.Contents.{contents};
ghost use Rattle.pad_generate.specs.Generated.{IsGenerated};
ghost use Rattle.pad_generate.specs.Inside.Receiving.{IsReceivedOf};

use crate::refused::GenerateRefused;
use pad_chain::ReceiveRefused;
use pad_edge::{Failed, Sink, Wires};
use pad_generator::{as_many_as_asked, each_is_read, generate as contents_of};
use pad_output::write_all;
use pad_patch::Steps;
use pad_received::Received;
use std::alloc::{AllocError, Global};
use std::marker::Brand;
use std::sync::ledger::{Blank, Ledger};

/// Generates so many messages of a number, receives them, and writes how many there are and the report of them, without its text.
pub fn generate<O: Sink>(
    alloc: Global,
    number: u64,
    count: u32,
    output: &mut O,
) -> Result<(), GenerateRefused>
    requires some { 1 ≤ count }
    requires few { count ≤ MOST_MESSAGES }
    ensures whole { OnOk result (AppendsSome (IsGenerated number count) (O.written output.old) (O.written output.new)) }
    ensures part { IsErrOf result GenerateRefused.Write → AppendsPartOfSome (IsGenerated number count) (O.written output.old) (O.written output.new) }
    ensures unwritten { OnErr result (IsErrOf result GenerateRefused.Write ⊎ (output.new ≡ output.old)) }
    ensures write { IsErrOf result GenerateRefused.Write → Rose (O.faults output.old) (O.faults output.new) }
    ensures written { IsErrOf result GenerateRefused.Write ⊎ (O.faults output.new ≡ O.faults output.old) }
{
    match generated::<Brand>(alloc, number, count, Blank::new(1)) {
        Ok(text) => match write_all(output, text.as_bytes()) {
            Ok(()) => Ok(()),
            Err(Failed) => Err(GenerateRefused::Write),
        },
        Err(_) => Err(GenerateRefused::NoMemory),
    }
}

/// What is written of so many messages of a number. The steps that it takes are counted in the ledger.
fn generated<L: Ledger>(
    alloc: Global,
    number: u64,
    count: u32,
    blank: Blank,
) -> Result<String, AllocError>
    requires some { 1 ≤ count }
    requires few { count ≤ MOST_MESSAGES }
    requires name { blank.name ≡ L.name }
    requires parts { blank.parts ≡ L.parts }
    requires one { 0 < blank.parts }
    ensures { IfOk result (λ text. IsGenerated number count (string_bytes text)) }
{
    let mut steps = Steps::<L>::new(blank);
    let wires = contents_of(alloc, number, count)?;
    let received = receive_contents(alloc, number, count, &wires, &mut steps)?;
    let summary = received.summary(alloc)?;
    with_count(alloc, "generated", count, summary.as_str())
}

/// Adds a line of a word and a count.
fn push_count(lines: &mut String, word: &str, count: u32) -> Result<(), AllocError>
    ensures { IfOk result (λ _. string_bytes lines.new ≡ string_bytes lines.old ++ line word.now (decimal count)) }
{
    writeln!(lines, "{word} {count}")
}

/// A line of a word and a count, and then the summary.
fn with_count(alloc: Global, word: &str, count: u32, summary: &str) -> Result<String, AllocError>
    ensures { IfOk result (λ text. string_bytes text ≡ line word.now (decimal count) ++ summary.now) }
{
    let mut text = String::new(alloc);
    push_count(&mut text, word, count)?;
    text.push_str(summary)?;
    Ok(text)
}

/// What is received of the contents of a number. Each is read, and their names are few.
fn receive_contents<L: Ledger>(
    alloc: Global,
    number: u64,
    count: u32,
    wires: &Wires,
    steps: &mut Steps<L>,
) -> Result<Received, AllocError>
    requires few { count ≤ MOST_MESSAGES }
    requires given { wires.now ≡ contents number count }
    ensures { IfOk result (IsReceivedOf wires.now) }
{
    each_is_read();
    as_many_as_asked();
    let mut received = Received::new(alloc)?;
    for content in wires.as_slice() {
        match received.receive_line(alloc, content.as_str().as_bytes(), steps) {
            Ok(()) => {}
            // Many more names are received before a chain is full.
            Err(ReceiveRefused::Full) => unreachable!(),
            Err(ReceiveRefused::NoMemory(error)) => return Err(error),
        }
    }
    Ok(received)
}
