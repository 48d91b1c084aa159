use crate::{Heard, RoomHub};
use pad_edge::Wire;
use serve_loop::{Event, Out};
use std::alloc::Global;
use std::test::Fail;

fn first_text(alloc: Global, hub: &mut RoomHub, event: Event) -> Result<String, Fail> {
    let heard = hub.step(alloc, event)?;
    if let Heard::Done(outs) = &heard {
        if let Some(Out::Send(_, text)) = outs.first() {
            return Ok(String::from_str(alloc, text.as_str())?);
        }
    }
    Ok(String::new(alloc))
}

#[test]
fn identities_are_those_of_the_stream(rt: HostRuntime) -> Result<(), Fail> {
    let alloc = rt.alloc();
    let mut hub = RoomHub::new(alloc, [0; 32], 0)?;
    assert_eq!(rt; hub.keeper().as_str(), "ade0b876903df1a0");
    let texts = [
        "[0,\"\",\"IDENT\",\"0000000000000001e56a5d4028bd8653\"]",
        "[0,\"\",\"IDENT\",\"0000000000000002b819d2bd1aed8da0\"]",
        "[0,\"\",\"IDENT\",\"0000000000000003ccef36a8c70d778b\"]",
    ];
    let mut number = 0u64;
    for text in texts {
        number = number.wrapping_add(1);
        let first = first_text(alloc, &mut hub, Event::Opened(number))?;
        assert_eq!(rt; first.as_str(), text);
    }
    Ok(())
}

/// What a step gives: the connection and the text of each output, a line each.
fn said(alloc: Global, hub: &mut RoomHub, event: Event) -> Result<String, Fail> {
    let mut lines = String::new(alloc);
    if let Heard::Done(outs) = hub.step(alloc, event)? {
        for out in &outs {
            match out {
                Out::Send(number, text) => {
                    lines.push_str(format!(in alloc; "{} {}\n", number, text.as_str())?.as_str())?;
                }
                Out::HangUp(number) => {
                    lines.push_str(format!(in alloc; "{} -\n", number)?.as_str())?;
                }
            }
        }
    }
    Ok(lines)
}

fn text(alloc: Global, number: u64, text: &str) -> Result<Event, Fail> {
    Ok(Event::Text(number, Wire::new(String::from_str(alloc, text)?)))
}

#[test]
fn members_hear_of_each_other(rt: HostRuntime) -> Result<(), Fail> {
    let alloc = rt.alloc();
    let mut hub = RoomHub::new(alloc, [0; 32], 0)?;
    said(alloc, &mut hub, Event::Opened(7))?;
    said(alloc, &mut hub, Event::Opened(9))?;
    let join = "[1,\"JOIN\",\"00112233445566778899aabbccddeeff\"]";
    let event = text(alloc, 7, join)?;
    said(alloc, &mut hub, event)?;
    let event = text(alloc, 9, join)?;
    let lines = said(alloc, &mut hub, event)?;
    assert_eq!(rt;
        lines.as_str(),
        "9 [1,\"JACK\",\"00112233445566778899aabbccddeeff\"]\n\
9 [0,\"ade0b876903df1a0\",\"JOIN\",\"00112233445566778899aabbccddeeff\"]\n\
9 [0,\"0000000000000001e56a5d4028bd8653\",\"JOIN\",\"00112233445566778899aabbccddeeff\"]\n\
9 [0,\"0000000000000002b819d2bd1aed8da0\",\"JOIN\",\"00112233445566778899aabbccddeeff\"]\n\
7 [0,\"0000000000000002b819d2bd1aed8da0\",\"JOIN\",\"00112233445566778899aabbccddeeff\"]\n"
    );
    let lines = said(alloc, &mut hub, Event::Closed(9))?;
    assert_eq!(rt;
        lines.as_str(),
        "7 [0,\"0000000000000002b819d2bd1aed8da0\",\"LEAVE\",\"00112233445566778899aabbccddeeff\",\"Quit\"]\n"
    );
    Ok(())
}
