//! A summary of generated messages as two other programs have it (`tests/generator.py` and `tests/oracle.py`), and a write that fails.
use super::{GenerateRefused, generate};
use pad_edge::MemSink;
use std::test::Fail;

/// What is written of 120 messages of the number 7.
const SUMMARY: &str = "generated 120\n\
best e08d7b9dfc7d975c0534e37cf658eb2d05eb79b09050d6f19d41fcff85f55579\n\
height 96\n\
hash 61085cecf803e6e2bc82bc1ef2f9b6e23877b1895ba29dfd7d57385e8661bb53\n\
units 77\n\
known 120\n\
waiting 0\n\
unreadable 0\n\
root 0000000000000000000000000000000000000000000000000000000000000000 0\n\
kept 121\n\
overtaken 0\n";

#[test]
fn a_summary_is_that_of_other_programs(rt: HostRuntime) -> Result<(), Fail> {
    let alloc = rt.alloc();
    let mut sink = MemSink::new(vec![in alloc; b' '; 4096]?, 100, Vec::new(alloc));
    let done = generate(alloc, 7, 120, &mut sink);
    assert!(rt; done.is_ok());
    assert_eq!(rt; sink.as_slice(), SUMMARY.as_bytes());
    Ok(())
}

#[test]
fn a_failed_write_is_told(rt: HostRuntime) -> Result<(), Fail> {
    let alloc = rt.alloc();
    let mut failing = Vec::new(alloc);
    failing.push(1)?;
    let mut sink = MemSink::new(vec![in alloc; b' '; 4096]?, 10, failing);
    let refused = generate(alloc, 7, 1, &mut sink);
    assert_eq!(rt; refused, Err(GenerateRefused::Write));
    assert_eq!(rt; sink.as_slice(), b"generated ".as_slice());
    Ok(())
}
