//! Words, statuses, logs of a volume in memory, and generated messages.
use disk_volume::{MemVolume, Volume};
use pad_edge::{MemSink, MemSource};
use pad_top::Status;
use pad_top_trial::{run_alone, spaces, words_of};
use std::alloc::{AllocError, Global};
use std::test::Fail;

/// The digits of a channel.
const CHANNEL: &str = "00112233445566778899aabbccddeeff";

/// How the words end over this volume as it reads and an empty input, and what is written.
fn ran(alloc: Global, line: &str, volume: &MemVolume) -> Result<(Status, Vec<u8>), AllocError> {
    let words = words_of(alloc, line)?;
    let mut source = MemSource::new(Vec::new(alloc), 7, Vec::new(alloc));
    let mut sink = MemSink::new(spaces(alloc, 512)?, 5, Vec::new(alloc));
    let mut image = volume.image(alloc)?;
    let status = run_alone(alloc, words.as_slice(), &mut source, &mut sink, &mut image);
    Ok((status, sink.as_slice().to_vec(alloc)?))
}

#[test]
fn other_words_are_no_command(rt: HostRuntime) -> Result<(), Fail> {
    let alloc = rt.alloc();
    let volume = MemVolume::new(alloc, Vec::new(alloc));
    for line in [
        "",
        "replay x",
        "Replay",
        "replay replay",
        "-h",
        "serve 127.0.0.1:9001 pads",
        "serve 127.0.0.1:9001 pads 0",
        "serve 127.0.0.1:9001 pads 01",
        "serve 127.0.0.1:9001 pads +1",
        "serve 127.0.0.1:9001 pads 1000000001",
        "serve 127.0.0.1:9001 pads 1 1",
        "generate 7",
        "generate 7 0",
        "generate 7 100001",
        "generate 07 1",
        "generate 18446744073709551616 1",
        "generate 7 1 1",
    ] {
        let (status, output) = ran(alloc, line, &volume)?;
        assert_eq!(rt; status, Status::Usage, "at {line:?}");
        assert_eq!(rt; output.as_slice(), b"usage\n".as_slice(), "at {line:?}");
    }
    Ok(())
}

#[test]
fn statuses_have_their_numbers(rt: HostRuntime) {
    for (status, number) in [
        (Status::Ok, 0),
        (Status::Usage, 2),
        (Status::ReadFault, 3),
        (Status::WriteFault, 4),
        (Status::StoreFault, 5),
        (Status::LinkFault, 6),
        (Status::Limit, 7),
        (Status::BadScript(1), 8),
        (Status::NoMemory, 9),
        (Status::Damaged, 10),
        (Status::EndedEarly, 11),
    ] {
        assert_eq!(rt; status.number(), number);
    }
}

#[test]
fn a_log_tells_what_a_folder_has_of_a_channel(rt: HostRuntime) -> Result<(), Fail> {
    let alloc = rt.alloc();
    let line = format!(in alloc; "log pads {CHANNEL}")?;
    let one = format!(in alloc; "{CHANNEL}.padlog")?;
    let two = format!(in alloc; "{CHANNEL}.padlog2")?;
    let mut volume = MemVolume::new(alloc, Vec::new(alloc));

    let none = ran(alloc, line.as_str(), &volume)?;
    assert_eq!(rt; none.0, Status::Ok);
    assert_eq!(rt; none.1.as_slice(), b"entries 0\n".as_slice());

    // one entry: an open gate, 33 bytes, the sender, `m`, and a closed gate
    let old = b"PADLOG1\n\x01\x00\x00\x00\x210123456789abcdef0123456789abcdefm\x00";
    assert!(rt; volume.write_at(one.as_str(), 0, old.as_slice()).is_ok());
    let some = ran(alloc, line.as_str(), &volume)?;
    assert_eq!(rt; some.0, Status::Ok);
    let told = b"0 0 0123456789abcdef0123456789abcdef \"m\"\nentries 1\n";
    assert_eq!(rt; some.1.as_slice(), told.as_slice());

    // the magic of the other form
    assert!(rt;
        volume
            .write_at(two.as_str(), 0, b"PADLOG1\n\x00\x00".as_slice())
            .is_ok()
    );
    let damaged = ran(alloc, line.as_str(), &volume)?;
    assert_eq!(rt; damaged.0, Status::Damaged);
    assert_eq!(rt; damaged.1.as_slice(), b"damaged\n".as_slice());
    Ok(())
}

#[test]
fn a_folder_that_fails_is_told(rt: HostRuntime) -> Result<(), Fail> {
    let alloc = rt.alloc();
    let line = format!(in alloc; "log pads {CHANNEL}")?;
    let words = words_of(alloc, line.as_str())?;
    let mut source = MemSource::new(Vec::new(alloc), 7, Vec::new(alloc));
    let mut sink = MemSink::new(spaces(alloc, 256)?, 5, Vec::new(alloc));
    let mut volume = MemVolume::new(alloc, [0].to_vec(alloc)?);
    let status = run_alone(alloc, words.as_slice(), &mut source, &mut sink, &mut volume);
    assert_eq!(rt; status, Status::StoreFault);
    assert_eq!(rt; sink.as_slice(), b"store fault\n".as_slice());

    // no channel, and one in capitals
    for line in ["log pads", "log pads 00112233445566778899AABBCCDDEEFF"] {
        let other = ran(alloc, line, &volume)?;
        assert_eq!(rt; other.0, Status::Usage, "{line}");
    }
    Ok(())
}

/// The summary of one message of the number 7, by another program.
const SUMMARY: &str = "generated 1\n\
best 36f25853cee8a717fd5306610a681782b4ce48bf2b80bb09ce256c11c768a459\n\
height 1\n\
hash 043a718774c572bd8a25adbeb1bfcd5c0256ae11cecf9f9c3f925d0e52beaf89\n\
units 1\n\
known 1\n\
waiting 0\n\
unreadable 0\n\
root 0000000000000000000000000000000000000000000000000000000000000000 0\n\
kept 2\n\
overtaken 0\n";

#[test]
fn generated_messages_are_told(rt: HostRuntime) -> Result<(), Fail> {
    let alloc = rt.alloc();
    let volume = MemVolume::new(alloc, Vec::new(alloc));
    let (status, output) = ran(alloc, "generate 7 1", &volume)?;
    assert_eq!(rt; status, Status::Ok);
    assert_eq!(rt; output.as_slice(), SUMMARY.as_bytes());
    Ok(())
}
