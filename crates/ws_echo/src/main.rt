//! Sends back each text that comes over a port of `ws_edge`. tests/websocket.py tries the edge with it.
//!
//! ```text
//! ws_echo serve IP:PORT TURNS     a server, for so many calls of `next`
//! ws_echo dial IP:PORT COUNT      a client: so many texts there and back
//! ```
//!
//! Three texts are answered otherwise: `!many COUNT SIZE` by so many texts of so many bytes, `!last SIZE` by one such text and a
//! hang-up, and `!bye` by two texts and a hang-up.
#![tactic(auto)]

use pad_edge::{Arrival, Link, Port, PortEvent};
use std::{env, io};
use ws_edge::{WsLink, WsPort};

fn main(rt: HostRuntime) -> io::Result<()> {
    let mut words = env::args(&rt)?;
    let _ = words.next();
    let words: Vec<String> = words.collect(rt.alloc())?;
    if words.len() != 3 {
        return println!(rt; "usage: ws_echo serve IP:PORT TURNS, or ws_echo dial IP:PORT COUNT");
    }
    let count = number(words[2].as_str());
    match words[0].as_str() {
        "serve" => serve(&rt, words[1].as_str(), count),
        _ => dial(&rt, words[1].as_str(), count),
    }
}

/// The number that a word spells, or 0.
fn number(word: &str) -> u64 {
    word.parse::<u64>().unwrap_or(0)
}

/// Answers texts, for so many calls of `next`.
fn serve(rt: &HostRuntime, address: &str, turns: u64) -> io::Result<()> {
    let mut port = WsPort::new(rt.alloc(), rt.clone()?);
    if port.listen(address).is_err() {
        return println!(rt; "listen: failed");
    }
    for _ in 0..turns {
        match port.next() {
            Ok(PortEvent::Text(connection, text)) => {
                answer(rt, &mut port, connection, text.as_str())?;
            }
            Ok(_) => {}
            Err(_) => return println!(rt; "next: failed"),
        }
    }
    Ok(())
}

/// Answers a text.
fn answer(
    rt: &HostRuntime,
    port: &mut WsPort<HostRuntime>,
    connection: u64,
    text: &str,
) -> io::Result<()> {
    let mut words = text.split(' ');
    let first = words.next().unwrap_or("");
    let second = number(words.next().unwrap_or(""));
    let third = number(words.next().unwrap_or(""));
    match first {
        "!many" => send_many(rt, port, connection, second, third),
        "!last" => {
            send_many(rt, port, connection, 1, second)?;
            port.hang_up(connection);
            Ok(())
        }
        "!bye" => {
            send(port, connection, "one");
            send(port, connection, "two");
            port.hang_up(connection);
            Ok(())
        }
        _ => {
            send(port, connection, text);
            Ok(())
        }
    }
}

/// Sends a text, and hangs up if that fails. It answers whether it was sent.
fn send(port: &mut WsPort<HostRuntime>, connection: u64, text: &str) -> bool {
    let is_sent = port.send(connection, text).is_ok();
    if !is_sent {
        port.hang_up(connection);
    }
    is_sent
}

/// Sends so many texts of so many bytes, until one fails.
fn send_many(
    rt: &HostRuntime,
    port: &mut WsPort<HostRuntime>,
    connection: u64,
    count: u64,
    size: u64,
) -> io::Result<()> {
    let mut text = String::new(rt.alloc());
    for _ in 0..size {
        text.push_str("x")?;
    }
    for _ in 0..count {
        if !send(port, connection, text.as_str()) {
            return Ok(());
        }
    }
    Ok(())
}

/// Sends so many texts, and waits for each to come back.
fn dial(rt: &HostRuntime, address: &str, count: u64) -> io::Result<()> {
    let mut link = WsLink::new(rt.alloc(), rt.clone()?);
    if let Err(refused) = link.dial(address) {
        return println!(rt; "dial: {refused}");
    }
    for turn in 0..count {
        let text = format!(in rt.alloc(); "text {turn}")?;
        if let Err(refused) = link.send(text.as_str()) {
            return println!(rt; "send: {refused}");
        }
        match link.recv() {
            Ok(Arrival::Text(back)) => {
                if back.as_str() != text.as_str() {
                    return println!(rt; "another text came back");
                }
            }
            Ok(Arrival::Ended) => return println!(rt; "ended"),
            Err(refused) => return println!(rt; "recv: {refused}"),
        }
    }
    println!(rt; "all {count}")
}
