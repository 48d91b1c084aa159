use super::{
    Arrival, Clock, Failed, Link, LinkRefused, MemClock, MemLink, MemPort, MemSink, MemSource,
    Port, PortEvent, Sent, Sink, Source, SureSink, SureSource, Wire, Wires,
};
use std::alloc::Global;
use std::test::Fail;

fn read_from<S: Source>(source: &mut S, buf: &mut [u8]) -> Result<usize, Failed> {
    source.read(buf)
}

fn write_to<S: Sink>(sink: &mut S, piece: &[u8]) -> Result<usize, Failed> {
    sink.write(piece)
}

fn now_of<C: Clock>(clock: &mut C) -> u64 {
    clock.now()
}

#[test]
fn sources_give_their_bytes_in_pieces(rt: HostRuntime) -> Result<(), Fail> {
    let alloc = rt.alloc();
    let mut buf = [0u8; 5];

    let mut some_fail = MemSource::new(b"abcdefg".to_vec(alloc)?, 3, [1].to_vec(alloc)?);
    for want in [
        Some(b"abc".as_slice()),
        None,
        Some(b"def"),
        Some(b"g"),
        Some(b""),
    ] {
        let got = read_from(&mut some_fail, &mut buf)
            .ok()
            .and_then(|count| buf.get(..count));
        assert_eq!(rt; got, want);
    }

    let mut none_fail = SureSource::new(b"abcdefg".to_vec(alloc)?, 6);
    for want in [Some(b"abcde".as_slice()), Some(b"fg"), Some(b"")] {
        let got = read_from(&mut none_fail, &mut buf)
            .ok()
            .and_then(|count| buf.get(..count));
        assert_eq!(rt; got, want);
    }
    Ok(())
}

#[test]
fn sinks_take_pieces_until_their_room_is_full(rt: HostRuntime) -> Result<(), Fail> {
    let alloc = rt.alloc();

    let mut four_bytes = MemSink::new(b"....".to_vec(alloc)?, 3, [1].to_vec(alloc)?);
    for (piece, want) in [
        ("abc", Some(3)),
        ("d", None),
        ("de", Some(1)),
        ("e", None),
        ("", Some(0)),
    ] {
        assert_eq!(rt;
            write_to(&mut four_bytes, piece.as_bytes()).ok(),
            want,
            "at {piece:?}"
        );
    }
    assert_eq!(rt; four_bytes.as_slice(), b"abcd".as_slice());

    let mut no_end = SureSink::new(2);
    for (piece, want) in [("abc", Some(2)), ("c", Some(1)), ("", Some(0))] {
        assert_eq!(rt;
            write_to(&mut no_end, piece.as_bytes()).ok(),
            want,
            "at {piece:?}"
        );
    }
    Ok(())
}

#[test]
fn wires_lend_their_texts(rt: HostRuntime) -> Result<(), Fail> {
    let alloc = rt.alloc();
    let mut texts = Vec::new(alloc);
    texts.push(wire_of(alloc, "[7,\"PING\"]")?)?;
    texts.push(Wire::shared(String::from_str(alloc, "é")?)?.copy()?)?;
    let wires = Wires::new(texts);
    for (wire, want) in wires.as_slice().iter().zip(["[7,\"PING\"]", "é"]) {
        assert_eq!(rt; wire.as_str(), want);
    }
    Ok(())
}

#[test]
fn a_clock_stays_at_its_last_moment(rt: HostRuntime) -> Result<(), Fail> {
    let alloc = rt.alloc();
    let mut clock = MemClock::new([7, 9].to_vec(alloc)?);
    for want in [7, 9, 9] {
        assert_eq!(rt; now_of(&mut clock), want);
    }
    assert_eq!(rt; now_of(&mut MemClock::new(Vec::new(alloc))), 0);
    Ok(())
}

fn wire_of(alloc: Global, text: &str) -> Result<Wire, Fail> {
    Ok(Wire::new(String::from_str(alloc, text)?))
}

/// Dials, sends, and hears four times. It answers what was heard, with `.` for the end and `!` for a failed call.
fn talk_over<L: Link>(alloc: Global, link: &mut L) -> Result<String, Fail> {
    let mut heard = String::new(alloc);
    for answer in [link.dial("127.0.0.1:1"), link.send("hello")] {
        if answer.is_err() {
            heard.push_str("!")?;
        }
    }
    for _ in 0..4 {
        match link.recv() {
            Ok(Arrival::Text(text)) => heard.push_str(text.as_str())?,
            Ok(Arrival::Ended) => heard.push_str(".")?,
            Err(_) => heard.push_str("!")?,
        }
    }
    Ok(heard)
}

#[test]
fn links_give_their_texts_and_end(rt: HostRuntime) -> Result<(), Fail> {
    let alloc = rt.alloc();
    let mut texts = Vec::new(alloc);
    texts.push(wire_of(alloc, "a")?)?;
    texts.push(Wire::shared(String::from_str(alloc, "b")?)?)?;
    let mut link = MemLink::new(texts, [0, 3].to_vec(alloc)?);
    assert_eq!(rt; talk_over(alloc, &mut link)?.as_str(), "!a!b.");
    assert_eq!(rt;
        link.sent().first().map(|wire| wire.as_str()),
        Some("hello")
    );
    Ok(())
}

/// Listens, and answers each text to its connection until the port ends.
fn echo_over<P: Port>(port: &mut P) -> Result<(), LinkRefused> {
    port.listen("127.0.0.1:1")?;
    for _ in 0..9 {
        match port.next()? {
            PortEvent::Text(connection, text) => {
                if port.send(connection, text.as_str()) != Err(LinkRefused::NoMemory) {
                    port.hang_up(connection);
                }
            }
            PortEvent::Ended => return Ok(()),
            _ => {}
        }
    }
    Ok(())
}

#[test]
fn ports_give_their_events_and_keep_what_went_out(rt: HostRuntime) -> Result<(), Fail> {
    let alloc = rt.alloc();
    let mut events = Vec::new(alloc);
    events.push(PortEvent::Opened(7))?;
    events.push(PortEvent::Text(7, wire_of(alloc, "a")?))?;
    events.push(PortEvent::Text(8, wire_of(alloc, "b")?))?;
    events.push(PortEvent::Closed(7))?;
    let mut port = MemPort::new(events, [5].to_vec(alloc)?);
    assert_eq!(rt; echo_over(&mut port), Ok(()));
    let mut out = String::new(alloc);
    for sent in port.sent() {
        match sent {
            Sent::Text(connection, text) => write!(out, "{connection} {} ", text.as_str())?,
            Sent::HungUp(connection) => write!(out, "{connection} . ")?,
        }
    }
    assert_eq!(rt; out.as_str(), "7 a 7 . 8 . ");
    assert_eq!(rt; port.failed(), [8].as_slice());
    Ok(())
}

#[test]
fn errors_name_their_cause(rt: HostRuntime) -> Result<(), Fail> {
    let alloc = rt.alloc();
    assert_eq!(rt;
        format!(in alloc; "{}", Failed)?.as_str(),
        "a call to the outside failed"
    );
    for (error, want) in [
        (LinkRefused::Failed, "a call to the outside failed"),
        (LinkRefused::NoMemory, "there was not enough memory"),
    ] {
        assert_eq!(rt; format!(in alloc; "{}", error)?.as_str(), want);
    }
    Ok(())
}
