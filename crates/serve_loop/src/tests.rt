ghost use Rattle.std.specs.Prelude.{◌≡◌, ◌≤◌, ℕ, List, [], IfOk, OnErr};
ghost use Rattle.std.proofs.Common.{rules};
ghost use Rattle.serve_loop.specs.Connected.{ClosesAlone};
ghost use Rattle.serve_loop.specs.Hangs.{HangsBehind};

use super::{Event, Machine, Out, Outs, serve};
use pad_edge::{LinkRefused, MemClock, MemPort, PortEvent, Sent, Wire};
use std::alloc::{AllocError, Global};
use std::test::Fail;

/// Greets each connection, sends each text back, and hangs up behind `bye`. Its world counts closings. It knows no states.
#[derive(Drop)]
struct Echo;

impl Machine<u64> for Echo {
    ghost tells = { ⊥ };

    ghost State = { Unit {0} };

    ghost Step = { λ state moment event outs next. Unit {0} };

    ghost stands = { λ echo world state. Unit {0} };

    ghost ready = { λ echo world. Unit {0} };

    ghost breaks = { λ state moment event world. Unit {0} };

    ghost leaves = { λ before now. before ≤ now };

    ghost connected = { λ echo. [] };

    fn step(
        &mut self,
        alloc: Global,
        world: &mut u64,
        _moment: u64,
        event: Event,
    ) -> Result<Outs, AllocError> {
        let mut outs = Vec::new(alloc);
        match event {
            Event::Opened(connection) => {
                let text = Wire::new(String::from_str(alloc, "hi")?);
                outs.push(Out::Send(connection, text))?;
            }
            Event::Text(connection, text) => {
                let is_last = text.as_str() == "bye";
                outs.push(Out::Send(connection, text))?;
                if is_last {
                    outs.push(Out::HangUp(connection))?;
                }
            }
            Event::Closed(_) => *world = world.saturating_add(1),
        }
        Ok(Outs::new(outs))
    }

    ghost leaves_itself = { λ world. Prim.search rules };

    ghost leaves_on = { λ before mid now first second. Prim.search rules };
}

fn wire_of(alloc: Global, text: &str) -> Result<Wire, Fail> {
    Ok(Wire::new(String::from_str(alloc, text)?))
}

#[test]
fn a_failed_send_is_hung_up_and_closed(rt: HostRuntime) -> Result<(), Fail> {
    let alloc = rt.alloc();
    let mut events = Vec::new(alloc);
    events.push(PortEvent::Opened(7))?;
    events.push(PortEvent::Text(7, wire_of(alloc, "a")?))?;
    events.push(PortEvent::Opened(8))?;
    events.push(PortEvent::Text(8, wire_of(alloc, "bye")?))?;
    events.push(PortEvent::Text(7, wire_of(alloc, "b")?))?;
    let mut port = MemPort::new(events, [9].to_vec(alloc)?);
    let mut clock = MemClock::new(Vec::new(alloc));
    let mut closings = 0;
    let made = serve(alloc, &mut port, &mut Echo, &mut closings, &mut clock, 100);
    assert_eq!(rt; made, Ok(6));
    let mut out = String::new(alloc);
    for sent in port.sent() {
        match sent {
            Sent::Text(connection, text) => write!(out, "{connection} {}, ", text.as_str())?,
            Sent::HungUp(connection) => write!(out, "{connection} hung up, ")?,
        }
    }
    let want = "7 hi, 7 a, 8 hi, 8 bye, 8 hung up, 7 hung up, ";
    assert_eq!(rt; out.as_str(), want);
    assert_eq!(rt; closings, 1);
    Ok(())
}

#[test]
fn it_stops_after_its_turns_and_where_the_port_fails(rt: HostRuntime) -> Result<(), Fail> {
    let alloc = rt.alloc();
    for (turns, want) in [(0, Ok(0)), (2, Ok(2)), (9, Err(LinkRefused::Failed))] {
        let mut events = Vec::new(alloc);
        events.push(PortEvent::Idle)?;
        events.push(PortEvent::Closed(1))?;
        let mut port = MemPort::new(events, [2].to_vec(alloc)?);
        let mut clock = MemClock::new(Vec::new(alloc));
        let made = serve(alloc, &mut port, &mut Echo, &mut 0, &mut clock, turns);
        assert_eq!(rt; made, want);
    }
    Ok(())
}
