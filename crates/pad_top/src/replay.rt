ghost use Rattle.std.specs.Prelude.{◌≡◌, ◌<◌, Err, IfOk, IfErr, IfSome, OnOk, string_bytes};
ghost use Rattle.std.specs.Io.KnownBytes.{IsAtEnd};
ghost use Rattle.pad_edge.specs.Count.{Rose};
ghost use Rattle.pad_lines.specs.Line.{lines_of};
ghost use Rattle.pad_top.specs.Inside.Progress.{IsWholeAt};
ghost use Rattle.pad_top.specs.Inside.Refusal.{IsReplayRefusal, IsLinesRefusal};
ghost use Rattle.pad_top.specs.Replay.{IsReplayed};

use crate::input::read_all;
use crate::refused::ReplayRefused;
use crate::rest::Rest;
use pad_edge::Source;
use pad_lines::split_line;
use pad_patch::Steps;
use pad_received::Received;
use std::alloc::Global;
use std::sync::ledger::{Blank, Ledger};

/// The report of what the lines of the whole input read as. The steps that it takes are counted in the ledger.
pub(crate) fn replay<I: Source, L: Ledger>(
    alloc: Global,
    input: &mut I,
    blank: Blank,
) -> Result<String, ReplayRefused>
    requires name { blank.name ≡ L.name }
    requires parts { blank.parts ≡ L.parts }
    requires some { 0 < blank.parts }
    ensures report { IfOk result (λ text. IfSome (I.left input.old) (λ bytes. IsReplayed bytes (string_bytes text))) }
    ensures ended { OnOk result (IsAtEnd (I.left input.new)) }
    ensures refused { IfErr result (IsReplayRefusal (I.left input.old) (Rose (I.faults input.old) (I.faults input.new))) }
    ensures told { I.faults input.old < I.faults input.new → result ≡ Err ReplayRefused.ReadFault }
{
    let mut steps = Steps::<L>::new(blank);
    let bytes = read_all(alloc, input)?;
    let received = receive_lines(alloc, bytes, &mut steps)?;
    let text = received.report(alloc)?;
    Ok(text)
}

/// What is received of all lines of a text. What is done of it gives its room back.
fn receive_lines<L: Ledger>(
    alloc: Global,
    text: Vec<u8>,
    steps: &mut Steps<L>,
) -> Result<Received, ReplayRefused>
    ensures received { IfOk result (IsWholeAt text.items) }
    ensures refused { IfErr result (IsLinesRefusal (lines_of text.items)) }
{
    let mut received = Received::new(alloc)?;
    let mut rest = Rest::new(text);
    while let Some((line, after)) = split_line(rest.as_slice()) {
        let left = after.len();
        received.receive_line(alloc, line, steps)?;
        rest.go_on(left);
    }
    Ok(received)
}
