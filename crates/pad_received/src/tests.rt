//! Some lines are received, in ample memory.
ghost use Rattle.std.specs.Prelude.{◌≡◌, ◌<◌};

use super::Received;
use pad_patch::Steps;
use std::alloc::{AllocError, Global};
use std::marker::Brand;
use std::sync::ledger::{Blank, Ledger};
use std::test::Fail;

/// `abc` on the base, then a line that is no message.
const LINES: [&str; 2] = [
    "[2,[[0,0,\"abc\"],\"e3b0c44298fc1c149afbf4c8996fb92427ae41e4649b934ca495991b7852b855\"],\"0000000000000000000000000000000000000000000000000000000000000000\"]",
    "abc",
];

const SUMMARY: &str = "best f77893ff123539a227a1e6cc9978b6c9a000367720745d32928d3bb0d0cbcdd6\n\
height 1\n\
hash ba7816bf8f01cfea414140de5dae2223b00361a396177a9cb410ff61f20015ad\n\
units 3\n\
known 1\n\
waiting 0\n\
unreadable 1\n\
root 0000000000000000000000000000000000000000000000000000000000000000 0\n\
kept 2\n\
overtaken 0\n";

/// The summary and the report of what the lines read as. The steps are counted in the ledger.
fn told<L: Ledger>(alloc: Global, blank: Blank) -> Result<(String, String), AllocError>
    requires name { blank.name ≡ L.name }
    requires parts { blank.parts ≡ L.parts }
    requires some { 0 < blank.parts }
{
    let mut steps = Steps::<L>::new(blank);
    let mut received = Received::new(alloc)?;
    let first = received.receive_line(alloc, LINES[0].as_bytes(), &mut steps);
    let second = received.receive_line(alloc, LINES[1].as_bytes(), &mut steps);
    if first.is_err() || second.is_err() {
        return Err(AllocError);
    }
    let summary = received.summary(alloc)?;
    Ok((summary, received.report(alloc)?))
}

#[test]
fn what_was_received_is_reported(rt: HostRuntime) -> Result<(), Fail> {
    let alloc = rt.alloc();
    let (summary, report) = told::<Brand>(alloc, Blank::new(1))?;
    assert_eq!(rt; summary.as_str(), SUMMARY);
    let whole = format!(in alloc; "{SUMMARY}text \"abc\"\n")?;
    assert_eq!(rt; report.as_str(), whole.as_str());
    Ok(())
}
