use super::{WsLink, WsPort};
use pad_edge::{Link, LinkRefused, Port, PortEvent};
use std::io::{self, Write};
use std::net::{Net, TcpListener, TcpStream};
use std::test::Fail;

/// A handshake of a client (RFC 6455, section 1.2).
const HANDSHAKE: &[u8] =
    b"GET / HTTP/1.1\r\nHost: 127.0.0.1\r\nUpgrade: websocket\r\nConnection: Upgrade\r\nSec-WebSocket-Key: dGhlIHNhbXBsZSBub25jZQ==\r\nSec-WebSocket-Version: 13\r\n\r\n";

/// The masked text `Hello` in one frame (RFC 6455, section 5.7).
const HELLO: &[u8] = b"\x81\x85\x37\xfa\x21\x3d\x7f\x9f\x4d\x51\x58";

/// An address at which nobody listens.
fn free_address(rt: &HostRuntime) -> io::Result<String> {
    let listener = TcpListener::bind(rt, "127.0.0.1:0")?;
    Ok(format!(in rt.alloc(); "{}", listener.local_addr()?)?)
}

/// Calls `next` until a text comes. It answers the number of its connection, if the text is this one.
fn heard<P: Port>(port: &mut P, want: &str) -> Option<u64> {
    for _ in 0..500 {
        if let Ok(PortEvent::Text(connection, text)) = port.next() {
            return (text.as_str() == want).then_some(connection);
        }
    }
    None
}

fn dial<L: Link>(link: &mut L, address: &str) -> Result<(), LinkRefused> {
    link.dial(address)
}

#[test]
fn a_silent_connection_holds_up_no_other(rt: HostRuntime) -> Result<(), Fail> {
    let address = free_address(&rt)?;
    let mut port = WsPort::new(rt.alloc(), rt.clone()?);
    assert!(rt; port.listen(address.as_str()).is_ok());
    let mut silent = TcpStream::connect(&rt, address.as_str())?;
    silent.write_all(HANDSHAKE)?;
    let mut talking = TcpStream::connect(&rt, address.as_str())?;
    talking.write_all(HANDSHAKE)?;
    talking.write_all(HELLO)?;
    let first = heard(&mut port, "Hello");
    assert!(rt; first.is_some());
    silent.write_all(HELLO)?;
    let second = heard(&mut port, "Hello");
    assert!(rt; second.is_some());
    assert!(rt; first != second);
    Ok(())
}

#[test]
fn nobody_answers(rt: HostRuntime) -> Result<(), Fail> {
    let address = free_address(&rt)?;
    let mut link = WsLink::new(rt.alloc(), rt.clone()?);
    assert_eq!(rt; dial(&mut link, address.as_str()), Err(LinkRefused::Failed));
    Ok(())
}
