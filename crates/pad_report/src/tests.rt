use crate::report::Report;
use pad_text::{Name, Text};
use std::rt::HostRuntime;
use std::test::Fail;

const LINES: &str = "best ba7816bf8f01cfea414140de5dae2223b00361a396177a9cb410ff61f20015ad\n\
height 1\n\
hash ba7816bf8f01cfea414140de5dae2223b00361a396177a9cb410ff61f20015ad\n\
units 3\n\
known 2\n\
waiting 3\n\
unreadable 4\n\
root ba7816bf8f01cfea414140de5dae2223b00361a396177a9cb410ff61f20015ad 5\n\
kept 6\n\
overtaken 7\n\
text \"abc\"\n";

#[test]
fn eleven_lines(rt: HostRuntime) -> Result<(), Fail> {
    let alloc = rt.alloc();
    let text = Text::from_str(alloc, "abc")?;
    let hash = text.hash(alloc)?;
    let report = Report {
        best: hash,
        height: 1,
        hash,
        known: 2,
        waiting: 3,
        unreadable: 4,
        root: hash,
        root_height: 5,
        kept: 6,
        overtaken: 7,
    };
    let lines = report.lines(alloc, &text)?;
    assert_eq!(rt; lines.as_str(), LINES);
    Ok(())
}
