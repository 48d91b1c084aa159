mod shelf;

use crate::Hub;
use pad_edge::Wire;
use serve_loop::{Event, Out, Outs};
use shelf::{Blank, Shelf};
use std::alloc::Global;
use std::test::Fail;

/// The connection and the text of each output, a line each.
fn lines_of(alloc: Global, outs: &Outs) -> Result<String, Fail> {
    let mut lines = String::new(alloc);
    for out in outs.as_slice() {
        match out {
            Out::Send(number, text) => {
                lines.push_str(format!(in alloc; "{} {}\n", number, text.as_str())?.as_str())?;
            }
            Out::HangUp(number) => {
                lines.push_str(format!(in alloc; "{} -\n", number)?.as_str())?;
            }
        }
    }
    Ok(lines)
}

/// A text with `@` for a channel's digits, `#` for the keeper's, and `<` and `>` for those of the first two connections.
fn spelled(alloc: Global, text: &str) -> Result<String, Fail> {
    let mut whole = String::new(alloc);
    for sign in text.chars() {
        match sign {
            '@' => whole.push_str("00112233445566778899aabbccddeeff")?,
            '#' => whole.push_str("ade0b876903df1a0")?,
            '<' => whole.push_str("0000000000000001e56a5d4028bd8653")?,
            '>' => whole.push_str("0000000000000002b819d2bd1aed8da0")?,
            other => whole.push(other)?,
        }
    }
    Ok(whole)
}

/// What a connection does: it opens at `+`, closes at `-`, and else says this.
fn event_of(alloc: Global, number: u64, said: &str) -> Result<Event, Fail> {
    Ok(match said {
        "+" => Event::Opened(number),
        "-" => Event::Closed(number),
        text => Event::Text(number, Wire::new(spelled(alloc, text)?)),
    })
}

/// One event of a day: a connection, what it does, and the texts that go out then, a line each.
#[derive(Clone, Copy, Drop)]
struct Turn {
    number: u64,
    said: &'static str,
    lines: &'static str,
}

const fn line(number: u64, said: &'static str, lines: &'static str) -> Turn {
    Turn {
        number,
        said,
        lines,
    }
}

/// What comes of the events of a day, the moment of each of which is its place from 1, over a volume of which one call fails.
fn outputs_of(alloc: Global, failing: u64, day: &[Turn]) -> Result<Vec<Outs>, Fail> {
    let mut events = Vec::new(alloc);
    let mut moment = 0u64;
    for turn in day {
        moment = moment.saturating_add(1);
        events.push((moment, event_of(alloc, turn.number, turn.said)?))?;
    }
    let mut hub = Hub::new(alloc, [0; 32], 0)?;
    let mut keeper = Shelf::new(alloc);
    Ok(hub.run(alloc, &mut keeper, &mut Blank::new(failing), events)?)
}

#[test]
fn a_day_gives_these_texts(rt: HostRuntime) -> Result<(), Fail> {
    let alloc = rt.alloc();
    let day = [
        line(7, "+", "7 [0,\"\",\"IDENT\",\"<\"]\n"),
        line(9, "+", "9 [0,\"\",\"IDENT\",\">\"]\n"),
        line(
            7,
            "[1,\"JOIN\",\"@\"]",
            "7 [1,\"JACK\",\"@\"]\n7 [0,\"#\",\"JOIN\",\"@\"]\n7 [0,\"<\",\"JOIN\",\"@\"]\n",
        ),
        line(
            9,
            "[1,\"JOIN\",\"@\"]",
            "9 [1,\"JACK\",\"@\"]\n9 [0,\"#\",\"JOIN\",\"@\"]\n9 [0,\"<\",\"JOIN\",\"@\"]\n9 [0,\">\",\"JOIN\",\"@\"]\n7 [0,\">\",\"JOIN\",\"@\"]\n",
        ),
        // Three messages to the channel, at the moments 5, 6 and 7; what comes of them from an index on, and from behind the last one on.
        line(
            9,
            "[2,\"MSG\",\"@\",\"a\"]",
            "9 [2,\"ACK\"]\n7 [0,\">\",\"MSG\",\"@\",\"a\"]\n",
        ),
        line(
            7,
            "[2,\"MSG\",\"@\",\"b\"]",
            "7 [2,\"ACK\"]\n9 [0,\"<\",\"MSG\",\"@\",\"b\"]\n",
        ),
        line(
            9,
            "[3,\"MSG\",\"@\",\"c\"]",
            "9 [3,\"ACK\"]\n7 [0,\">\",\"MSG\",\"@\",\"c\"]\n",
        ),
        line(
            9,
            "[4,\"MSG\",\"#\",\"[\\\"GET_HISTORY_AT\\\",\\\"@\\\",1]\"]",
            "9 [4,\"ACK\"]\n9 [0,\"#\",\"ENTRY\",\"@\",1,6,\"<\",\"b\"]\n9 [0,\"#\",\"ENTRY\",\"@\",2,7,\">\",\"c\"]\n9 [0,\"#\",\"HISTORY_END\",\"@\",3]\n",
        ),
        line(
            9,
            "[5,\"MSG\",\"#\",\"[\\\"GET_HISTORY_AT\\\",\\\"@\\\",9]\"]",
            "9 [5,\"ACK\"]\n9 [0,\"#\",\"HISTORY_END\",\"@\",3]\n",
        ),
        // A whole history, one from an unknown key, and no question.
        line(
            9,
            "[6,\"MSG\",\"#\",\"[\\\"GET_HISTORY\\\",\\\"@\\\"]\"]",
            "9 [6,\"ACK\"]\n9 [0,\"#\",\"HISTORY\",\"@\",0,\">\",\"a\"]\n9 [0,\"#\",\"HISTORY\",\"@\",1,\"<\",\"b\"]\n9 [0,\"#\",\"HISTORY\",\"@\",2,\">\",\"c\"]\n9 [0,\"#\",\"HISTORY_END\",\"@\",3]\n",
        ),
        line(
            9,
            "[7,\"MSG\",\"#\",\"[\\\"GET_HISTORY\\\",\\\"@\\\",\\\"@@\\\"]\"]",
            "9 [7,\"ACK\"]\n9 [0,\"#\",\"HISTORY_UNKNOWN\",\"@\",\"@@\"]\n",
        ),
        line(
            9,
            "[8,\"MSG\",\"#\",\"[\\\"GET\\\"]\"]",
            "9 [8,\"ERROR\",\"EINVAL\",\"\"]\n",
        ),
        line(
            9,
            "[9,\"JOIN\",\"@\"]",
            "9 [9,\"ERROR\",\"EJOINED\",\"@\"]\n",
        ),
        line(
            9,
            "[10,\"MSG\",\"nobody\",\"m\"]",
            "9 [10,\"ERROR\",\"ENOENT\",\"nobody\"]\n",
        ),
        line(9, "hello", "9 [0,\"ERROR\",\"EINVAL\",\"\"]\n"),
        line(9, "[11,\"NOPE\"]", "9 [11,\"ERROR\",\"EINVAL\",\"\"]\n"),
        line(9, "[12,\"PING\"]", "9 [12,\"ACK\"]\n"),
        line(
            9,
            "[13,\"MSG\",\"<\",\"m\"]",
            "9 [13,\"ACK\"]\n7 [0,\">\",\"MSG\",\"<\",\"m\"]\n",
        ),
        // A message that is not stored, which nobody hears, and one that is.
        line(
            7,
            "[3,\"MSG\",\"@\",\"d\"]",
            "7 [3,\"ERROR\",\"ESTORE\",\"@\"]\n",
        ),
        line(
            7,
            "[4,\"MSG\",\"@\",\"e\"]",
            "7 [4,\"ACK\"]\n9 [0,\"<\",\"MSG\",\"@\",\"e\"]\n",
        ),
        line(
            9,
            "[14,\"MSG\",\"#\",\"[\\\"GET_HISTORY_AT\\\",\\\"@\\\",3]\"]",
            "9 [14,\"ACK\"]\n9 [0,\"#\",\"ENTRY\",\"@\",3,20,\"<\",\"e\"]\n9 [0,\"#\",\"HISTORY_END\",\"@\",4]\n",
        ),
        line(7, "-", "9 [0,\"<\",\"LEAVE\",\"@\",\"Quit\"]\n"),
        // Of a connection that is not open, and the opening of one that is.
        line(7, "[1,\"PING\"]", ""),
        line(9, "+", ""),
        line(5, "-", ""),
    ];
    // The fourth store fails.
    let outputs = outputs_of(alloc, 4, &day)?;
    assert_eq!(rt; outputs.len(), day.len());
    for (outs, turn) in outputs.iter().zip(&day) {
        let lines = lines_of(alloc, outs)?;
        let want = spelled(alloc, turn.lines)?;
        assert_eq!(rt; lines.as_str(), want.as_str());
    }
    Ok(())
}
