//! Serving over a port, a clock and a volume in memory. The expected texts are those of the protocol, and the identity is that of another program.
ghost use Rattle.std.specs.Prelude.{List, ℕ};
ghost use Rattle.disk_volume.specs.Disk.{AtRest};
ghost use Rattle.disk_volume.specs.Memory.{disk_of};

use disk_volume::{MemVolume, Pick, Volume};
use pad_edge::{MemClock, MemLink, MemPort, MemSink, MemSource, PortEvent, Sent, Wire};
use pad_top::{Status, run};
use pad_top_trial::{run_alone, words_of};
use std::alloc::{AllocError, Global};
use std::test::Fail;

/// A channel.
const CHANNEL: &str = "00112233445566778899aabbccddeeff";

/// The texts that a connection is sent that opens and joins the channel, where the key is 32 zeros.
const JOINED: [&str; 4] = [
    "[0,\"\",\"IDENT\",\"0000000000000001e56a5d4028bd8653\"]",
    "[1,\"JACK\",\"00112233445566778899aabbccddeeff\"]",
    "[0,\"ade0b876903df1a0\",\"JOIN\",\"00112233445566778899aabbccddeeff\"]",
    "[0,\"0000000000000001e56a5d4028bd8653\",\"JOIN\",\"00112233445566778899aabbccddeeff\"]",
];

/// A text.
fn wire(alloc: Global, text: &str) -> Result<Wire, AllocError> {
    Ok(Wire::new(String::from_str(alloc, text)?))
}

/// A port at which a connection opens and joins the channel. The calls of these numbers fail.
fn joining(alloc: Global, failing: Vec<u64>) -> Result<MemPort, AllocError> {
    let join = format!(in alloc; "[1,\"JOIN\",\"{CHANNEL}\"]")?;
    let mut events = Vec::new(alloc);
    events.push(PortEvent::Opened(7))?;
    events.push(PortEvent::Text(7, wire(alloc, join.as_str())?))?;
    Ok(MemPort::new(events, failing))
}

/// A port at which a connection opens, joins the channel and sends a message.
fn sending(alloc: Global) -> Result<MemPort, AllocError> {
    let join = format!(in alloc; "[1,\"JOIN\",\"{CHANNEL}\"]")?;
    let message = format!(in alloc; "[2,\"MSG\",\"{CHANNEL}\",\"n\"]")?;
    let mut events = Vec::new(alloc);
    events.push(PortEvent::Opened(7))?;
    events.push(PortEvent::Text(7, wire(alloc, join.as_str())?))?;
    events.push(PortEvent::Text(7, wire(alloc, message.as_str())?))?;
    Ok(MemPort::new(events, Vec::new(alloc)))
}

/// How serving this port ends at the clock 7.
fn run_at(
    alloc: Global,
    words: &[String],
    sink: &mut MemSink,
    port: &mut MemPort,
    volume: &mut MemVolume,
) -> Result<Status, AllocError>
    requires { (file : List ℕ) → AtRest (disk_of volume.old) file }
{
    let mut source = MemSource::new(Vec::new(alloc), 7, Vec::new(alloc));
    let mut link = MemLink::new(Vec::new(alloc), Vec::new(alloc));
    let mut clock = MemClock::new([7].to_vec(alloc)?);
    Ok(run(
        alloc,
        words,
        &mut source,
        sink,
        volume,
        port,
        &mut link,
        &mut clock,
        [0; 32],
    ))
}

/// How serving this port ends, what was sent and hung up, a line each, and what is written.
fn served(
    alloc: Global,
    port: &mut MemPort,
    volume: &mut MemVolume,
) -> Result<(Status, String), AllocError>
    requires { (file : List ℕ) → AtRest (disk_of volume.old) file }
{
    let words = words_of(alloc, "serve 127.0.0.1:9001 pads 100")?;
    let mut sink = MemSink::new(vec![in alloc; b' '; 256]?, 5, Vec::new(alloc));
    let status = run_at(alloc, words.as_slice(), &mut sink, port, volume)?;
    let mut told = String::new(alloc);
    for sent in port.sent() {
        match sent {
            Sent::Text(connection, text) => writeln!(told, "{connection} {}", text.as_str())?,
            Sent::HungUp(connection) => writeln!(told, "{connection} hung up")?,
        }
    }
    for byte in sink.as_slice() {
        told.push(char::from(*byte))?;
    }
    Ok((status, told))
}

#[test]
fn a_failed_send_ends_no_server_and_a_failed_port_does(rt: HostRuntime) -> Result<(), Fail> {
    let alloc = rt.alloc();

    // the calls of the port are `listen`, `next`, a send, `next`, three sends, and `next`, which ends it
    for (call, texts, is_hung_up, status) in [
        (0, 0, false, Status::LinkFault),
        (1, 0, false, Status::LinkFault),
        (2, 0, true, Status::Ok),
        (3, 1, false, Status::LinkFault),
        (4, 1, true, Status::Ok),
        (5, 2, true, Status::Ok),
        (6, 3, true, Status::Ok),
        (7, 4, false, Status::LinkFault),
        (8, 4, false, Status::Ok),
    ] {
        let mut volume = MemVolume::new(alloc, Vec::new(alloc));
        let mut port = joining(alloc, [call].to_vec(alloc)?)?;
        let found = served(alloc, &mut port, &mut volume)?;
        let mut want = String::new(alloc);
        for (place, text) in JOINED.iter().enumerate() {
            if place < texts {
                writeln!(want, "7 {text}")?;
            }
        }
        if is_hung_up {
            want.push_str("7 hung up\n")?;
        }
        let last = match status {
            Status::Ok => "turns 3\n",
            _ => "link fault\n",
        };
        want.push_str(last)?;
        assert_eq!(rt; found.0, status, "at call {call}");
        assert_eq!(rt; found.1.as_str(), want.as_str(), "at call {call}");
    }
    Ok(())
}

#[test]
fn a_folder_that_fails_ends_a_server(rt: HostRuntime) -> Result<(), Fail> {
    let alloc = rt.alloc();
    let mut volume = MemVolume::new(alloc, [0].to_vec(alloc)?);
    let mut port = joining(alloc, Vec::new(alloc))?;
    let found = served(alloc, &mut port, &mut volume)?;
    assert_eq!(rt; found.0, Status::StoreFault);
    assert_eq!(rt; found.1.as_str(), "store fault\n");
    Ok(())
}

/// The log of the channel in what a crash now would leave of a volume.
fn log_after(alloc: Global, volume: &MemVolume) -> Result<String, AllocError> {
    let mut words = words_of(alloc, "log pads")?;
    words.push(String::from_str(alloc, CHANNEL)?)?;
    let mut source = MemSource::new(Vec::new(alloc), 7, Vec::new(alloc));
    let mut sink = MemSink::new(vec![in alloc; b' '; 256]?, 64, Vec::new(alloc));
    let mut image = volume.image(alloc)?;
    let _ = run_alone(alloc, words.as_slice(), &mut source, &mut sink, &mut image);
    let mut told = String::new(alloc);
    for byte in sink.as_slice() {
        told.push(char::from(*byte))?;
    }
    Ok(told)
}

/// A store to these files that stops in a call of the volume: whether it was acknowledged, the log after that, and whether it stopped.
fn crashed(
    alloc: Global,
    files: &MemVolume,
    call: u64,
    pick: Pick,
) -> Result<(bool, String, bool), AllocError> {
    let mut volume = files.image(alloc)?;
    volume.stop_at(call, pick);
    let mut port = sending(alloc)?;
    let found = served(alloc, &mut port, &mut volume)?;
    let log = log_after(alloc, &volume)?;
    Ok((found.1.contains("[2,\"ACK\"]"), log, volume.has_stopped()))
}

#[test]
fn what_is_acknowledged_outlives_a_crash(rt: HostRuntime) -> Result<(), Fail> {
    let alloc = rt.alloc();
    let older = format!(in alloc; "{CHANNEL}.padlog")?;
    let before = "0 0 0000000000000001e56a5d4028bd8653 \"m\"\nentries 1\n";
    let after =
        "0 0 0000000000000001e56a5d4028bd8653 \"m\"\n1 7 0000000000000001e56a5d4028bd8653 \"n\"\nentries 2\n";

    // one entry in the older form, to which another is added; a crash comes in each call of the volume, and leaves as much as it may in four ways
    let mut files = MemVolume::new(alloc, Vec::new(alloc));
    let entry = b"PADLOG1\n\x01\0\0\0\x210000000000000001e56a5d4028bd8653m\0";
    assert!(rt; files.write_at(older.as_str(), 0, entry.as_slice()).is_ok());
    for pick in [Pick::Old, Pick::New, Pick::Torn(0), Pick::Torn(1)] {
        for call in 0..60 {
            let (acknowledged, log, stopped) = crashed(alloc, &files, call, pick)?;
            if acknowledged || log.as_str() != before {
                assert_eq!(rt; log.as_str(), after, "at {pick:?} in call {call}");
            }
            if !stopped {
                assert!(rt; acknowledged);
                break;
            }
        }
    }
    Ok(())
}

/// The bytes of the channel's file with the entry that `sending` makes: its gate has this byte.
fn stored(alloc: Global, gate: u8) -> Result<Vec<u8>, AllocError> {
    let mut bytes = b"PADLOG2\n\x01\0\0\0\0".to_vec(alloc)?;
    bytes.push(gate)?;
    for byte in b"\0\0\0\x29\0\0\0\0\0\0\0\x070000000000000001e56a5d4028bd8653n\0" {
        bytes.push(*byte)?;
    }
    Ok(bytes)
}

/// How many calls of the volume a store makes, with the one of `root`.
fn calls_of_a_store(alloc: Global) -> Result<u64, AllocError> {
    let mut volume = MemVolume::new(alloc, Vec::new(alloc));
    let mut port = sending(alloc)?;
    served(alloc, &mut port, &mut volume)?;
    Ok(volume.calls())
}

/// How a store ends whose call of the volume of this number fails, and what is told.
fn failed_at(alloc: Global, call: u64) -> Result<(Status, String), AllocError> {
    let mut volume = MemVolume::new(alloc, [call].to_vec(alloc)?);
    let mut port = sending(alloc)?;
    served(alloc, &mut port, &mut volume)
}

/// What is told of a store that failed.
fn told_of_a_failed_store(alloc: Global) -> Result<String, AllocError> {
    let mut told = String::new(alloc);
    for text in JOINED {
        writeln!(told, "7 {text}")?;
    }
    told.push_str("7 [2,\"ERROR\",\"ESTORE\",\"00112233445566778899aabbccddeeff\"]\nturns 4\n")?;
    Ok(told)
}

#[test]
fn a_failed_store_is_told_to_its_sender(rt: HostRuntime) -> Result<(), Fail> {
    let alloc = rt.alloc();
    let want = told_of_a_failed_store(alloc)?;
    // each call of the volume behind `root` fails in turn; the last one is the second sync of the append
    for call in 1..calls_of_a_store(alloc)? {
        let found = failed_at(alloc, call)?;
        assert_eq!(rt; found.0, Status::Ok, "at call {call}");
        assert_eq!(rt; found.1.as_str(), want.as_str(), "at call {call}");
    }
    Ok(())
}

#[test]
fn a_crash_after_a_failed_sync_may_leave_either(rt: HostRuntime) -> Result<(), Fail> {
    let alloc = rt.alloc();
    let file = format!(in alloc; "{CHANNEL}.padlog2")?;
    let last = calls_of_a_store(alloc)?.saturating_sub(1);
    let mut volume = MemVolume::new(alloc, [last].to_vec(alloc)?);
    let mut port = sending(alloc)?;
    served(alloc, &mut port, &mut volume)?;
    for gate in [0, 1] {
        let bytes = stored(alloc, gate)?;
        assert!(rt; volume.may_leave(alloc, file.as_str(), bytes.as_slice())?);
    }
    Ok(())
}
