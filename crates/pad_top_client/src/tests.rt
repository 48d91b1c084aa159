//! Scripts over a link in memory. The names and hashes are those of another program, and the texts those of the protocol.
use disk_volume::MemVolume;
use pad_edge::{MemClock, MemLink, MemPort, MemSink, MemSource, Wire};
use pad_top::{Status, run};
use std::alloc::{AllocError, Global};
use std::test::Fail;

/// A script that joins a channel, and sends an edit.
const SCRIPT: &str =
    "# says hi\njoin 00112233445566778899aabbccddeeff\nedit 0 0 \"hi\"\nsync\nsettle\nshow\n";

/// What the server says to it.
const HEARD: [&str; 5] = [
    "[0,\"\",\"IDENT\",\"0000000000000001e56a5d4028bd8653\"]",
    "[1,\"JACK\",\"00112233445566778899aabbccddeeff\"]",
    "[0,\"ade0b876903df1a0\",\"JOIN\",\"00112233445566778899aabbccddeeff\"]",
    "[0,\"0000000000000001e56a5d4028bd8653\",\"JOIN\",\"00112233445566778899aabbccddeeff\"]",
    "[2,\"ACK\"]",
];

/// What it says.
const SENT: [&str; 2] = [
    "[1,\"JOIN\",\"00112233445566778899aabbccddeeff\"]",
    "[2,\"MSG\",\"00112233445566778899aabbccddeeff\",\"[2,[[0,0,\\\"hi\\\"],\\\"e3b0c44298fc1c149afbf4c8996fb92427ae41e4649b934ca495991b7852b855\\\"],\\\"0000000000000000000000000000000000000000000000000000000000000000\\\"]\"]",
];

/// The report at its end.
const REPORT: &str =
    "best 1ed74cb24bb725165b4f4028701cb378cd368c10cced8875b6a3f2d70569f0f3\nheight 1\nhash 8f434346648f6b96df89dda901c5176b10a6d83961dd3c1ac88b59b2dc327aa4\nunits 2\nknown 1\nwaiting 0\nunreadable 0\nroot 0000000000000000000000000000000000000000000000000000000000000000 0\nkept 2\novertaken 0\ntext \"hi\"\noutbox 0\nwork 0\nshown \"hi\"\n";

/// Texts of which each is given in turn.
fn wires(alloc: Global, texts: &[&str]) -> Result<Vec<Wire>, AllocError> {
    let mut wires = Vec::new(alloc);
    for text in texts {
        wires.push(Wire::new(String::from_str(alloc, text)?))?;
    }
    Ok(wires)
}

/// How these words end over a script, a source and a link whose calls of these numbers fail, and a sink with so much room; what was sent, a
/// line each; what was written.
fn ran(
    alloc: Global,
    line: &str,
    script: &str,
    failing_reads: Vec<u64>,
    link: &mut MemLink,
    room: usize,
) -> Result<(Status, String, String), AllocError> {
    let mut words = Vec::new(alloc);
    for word in line.split(' ') {
        words.push(String::from_str(alloc, word)?)?;
    }
    let mut source = MemSource::new(script.as_bytes().to_vec(alloc)?, 7, failing_reads);
    let mut sink = MemSink::new(vec![in alloc; b' '; room]?, 50, Vec::new(alloc));
    let mut volume = MemVolume::new(alloc, Vec::new(alloc));
    let mut port = MemPort::new(Vec::new(alloc), Vec::new(alloc));
    let mut clock = MemClock::new(Vec::new(alloc));
    let status = run(
        alloc,
        words.as_slice(),
        &mut source,
        &mut sink,
        &mut volume,
        &mut port,
        link,
        &mut clock,
        [0; 32],
    );
    let mut sent = String::new(alloc);
    for text in link.sent() {
        writeln!(sent, "{}", text.as_str())?;
    }
    let mut written = String::new(alloc);
    for byte in sink.as_slice() {
        written.push(char::from(*byte))?;
    }
    Ok((status, sent, written))
}

/// The first of the texts that are sent, a line each.
fn first_sent(alloc: Global, count: usize) -> Result<String, AllocError> {
    let mut sent = String::new(alloc);
    for (place, text) in SENT.iter().enumerate() {
        if place < count {
            writeln!(sent, "{text}")?;
        }
    }
    Ok(sent)
}

#[test]
fn a_call_of_the_link_that_fails_ends_a_client(rt: HostRuntime) -> Result<(), Fail> {
    let alloc = rt.alloc();

    // the calls of the link are `dial`, a send, four texts, a send, and a text
    for (call, sent, status, written) in [
        (0, 0, Status::LinkFault, "link fault\n"),
        (1, 0, Status::LinkFault, "link fault\n"),
        (2, 1, Status::LinkFault, "link fault\n"),
        (3, 1, Status::LinkFault, "link fault\n"),
        (4, 1, Status::LinkFault, "link fault\n"),
        (5, 1, Status::LinkFault, "link fault\n"),
        (6, 1, Status::LinkFault, "link fault\n"),
        (7, 2, Status::LinkFault, "link fault\n"),
        (8, 2, Status::Ok, REPORT),
    ] {
        let mut link = MemLink::new(wires(alloc, &HEARD)?, [call].to_vec(alloc)?);
        let found = ran(
            alloc,
            "client 127.0.0.1:9001",
            SCRIPT,
            Vec::new(alloc),
            &mut link,
            1024,
        )?;
        assert_eq!(rt; found.0, status, "at call {call}");
        assert_eq!(rt;
            found.1.as_str(),
            first_sent(alloc, sent)?.as_str(),
            "at call {call}"
        );
        assert_eq!(rt; found.2.as_str(), written, "at call {call}");
    }
    Ok(())
}

/// The words of a client.
const WORDS: &str = "client 127.0.0.1:9001";

#[test]
fn a_link_that_ends_early_is_told(rt: HostRuntime) -> Result<(), Fail> {
    let alloc = rt.alloc();
    // the acknowledgement does not come
    let mut link = MemLink::new(wires(alloc, &HEARD[..4])?, Vec::new(alloc));
    let found = ran(alloc, WORDS, SCRIPT, Vec::new(alloc), &mut link, 1024)?;
    assert_eq!(rt; found.0, Status::EndedEarly);
    assert_eq!(rt; found.1.as_str(), first_sent(alloc, 2)?.as_str());
    assert_eq!(rt; found.2.as_str(), "ended early\n");
    Ok(())
}

#[test]
fn a_sink_without_room_is_told(rt: HostRuntime) -> Result<(), Fail> {
    let alloc = rt.alloc();
    let mut link = MemLink::new(wires(alloc, &HEARD)?, Vec::new(alloc));
    let found = ran(alloc, WORDS, SCRIPT, Vec::new(alloc), &mut link, 80)?;
    assert_eq!(rt; found.0, Status::WriteFault);
    assert_eq!(rt; found.1.as_str(), first_sent(alloc, 2)?.as_str());
    assert!(rt; REPORT.starts_with(found.2.as_str()));
    Ok(())
}

#[test]
fn what_is_no_script_dials_nothing(rt: HostRuntime) -> Result<(), Fail> {
    let alloc = rt.alloc();
    // a read that fails, a line outside the grammar, and other words
    for (line, script, failing, status, written) in [
        (WORDS, SCRIPT, 3, Status::ReadFault, "read fault\n"),
        (
            WORDS,
            "show\n\njoin C\n",
            100,
            Status::BadScript(3),
            "bad script line 3\n",
        ),
        ("client ", SCRIPT, 100, Status::Usage, "usage\n"),
        (
            "client 127.0.0.1:9001 hello",
            SCRIPT,
            100,
            Status::Usage,
            "usage\n",
        ),
    ] {
        // its first call would fail
        let mut link = MemLink::new(Vec::new(alloc), [0].to_vec(alloc)?);
        let reads = [failing].to_vec(alloc)?;
        let found = ran(alloc, line, script, reads, &mut link, 1024)?;
        assert_eq!(rt; found.0, status);
        assert_eq!(rt; found.1.as_str(), "");
        assert_eq!(rt; found.2.as_str(), written);
    }
    Ok(())
}

#[test]
fn a_refused_line_ends_no_script(rt: HostRuntime) -> Result<(), Fail> {
    let alloc = rt.alloc();
    // and an empty script says nothing
    for (script, written) in [("edit 1 0 \"x\"\n", "refused 1 Range\n"), ("", "")] {
        let mut link = MemLink::new(Vec::new(alloc), Vec::new(alloc));
        let found = ran(alloc, WORDS, script, Vec::new(alloc), &mut link, 1024)?;
        assert_eq!(rt; found.0, Status::Ok);
        assert_eq!(rt; found.2.as_str(), written);
    }
    Ok(())
}
