//! Names of segments, by values from outside.
use super::segment_file;
use std::test::Fail;

#[test]
fn segments_are_named_by_number(rt: HostRuntime) -> Result<(), Fail> {
    let alloc = rt.alloc();
    for (segment, want) in [
        (0, "c.padlog2"),
        (1, "c.padlog2.1"),
        (7, "c.padlog2.7"),
        (10, "c.padlog2.10"),
        (1_048_578, "c.padlog2.1048578"),
        (u64::MAX, "c.padlog2.18446744073709551615"),
    ] {
        let file = segment_file(alloc, "c.padlog2", segment)?;
        assert_eq!(rt; file.as_str(), want);
    }
    Ok(())
}
