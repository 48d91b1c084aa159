//! Two connections and a channel; each call of the volume in a store that fails; and a day on which each limit of hub and keeper is met.
ghost use Rattle.std.specs.Prelude.{List, ℕ, IfOk};
ghost use Rattle.disk_volume.specs.Disk.{AtRest};
ghost use Rattle.disk_volume.specs.Memory.{disk_of};

use super::day::{Day, first_other};
use super::outputs_of;
use disk_volume::MemVolume;
use std::alloc::{AllocError, Global};
use std::test::Fail;

/// One more than the bytes that a message may have.
const TOO_LONG: usize = 2_097_153;

/// How many connections may be open.
const CONNECTIONS: u64 = 1_024;

/// How many channels a connection may have joined.
const JOINS: u64 = 64;

/// How many channels a keeper loads.
const CHANNELS: u64 = 4_096;

/// A volume without files, of which these calls fail.
fn failing_in(alloc: Global, calls: &[u64]) -> Result<MemVolume, AllocError>
    ensures { IfOk result (λ volume. (file : List ℕ) → AtRest (disk_of volume) file) }
{
    let failing = Vec::from_slice(alloc, calls)?;
    Ok(MemVolume::new(alloc, failing))
}

/// A message to the channel with so many letters.
fn long_message(alloc: Global, letters: usize) -> Result<String, Fail> {
    let mut text = String::from_str(alloc, "[5,\"MSG\",\"00112233445566778899aabbccddeeff\",\"")?;
    for _ in 0..letters {
        text.push('a')?;
    }
    text.push_str("\"]")?;
    Ok(text)
}

/// A connection joins the channels of these numbers, in which nobody is.
fn join_alone(
    alloc: Global,
    day: &mut Day,
    number: u64,
    identity: &str,
    channels: std::ops::Range<u64>,
) -> Result<(), Fail> {
    for channel in channels {
        let said = format!(in alloc; "[1,\"JOIN\",\"{:032x}\"]", channel)?;
        let lines = format!(in alloc;
            "{} [1,\"JACK\",\"{:032x}\"]\n{} [0,\"#\",\"JOIN\",\"{:032x}\"]\n{} [0,\"{}\",\"JOIN\",\"{:032x}\"]\n",
            number, channel, number, channel, number, identity, channel
        )?;
        day.then(number, said.as_str(), lines.as_str())?;
    }
    Ok(())
}

/// What two connections say in a channel and are told.
const TALK: [(u64, &str, &str); 8] = [
    (7, "+", "7 [0,\"\",\"IDENT\",\"<\"]\n"),
    (9, "+", "9 [0,\"\",\"IDENT\",\">\"]\n"),
    (
        7,
        "[1,\"JOIN\",\"@\"]",
        "7 [1,\"JACK\",\"@\"]\n7 [0,\"#\",\"JOIN\",\"@\"]\n7 [0,\"<\",\"JOIN\",\"@\"]\n",
    ),
    (
        9,
        "[1,\"JOIN\",\"@\"]",
        "9 [1,\"JACK\",\"@\"]\n9 [0,\"#\",\"JOIN\",\"@\"]\n9 [0,\"<\",\"JOIN\",\"@\"]\n9 [0,\">\",\"JOIN\",\"@\"]\n7 [0,\">\",\"JOIN\",\"@\"]\n",
    ),
    (
        9,
        "[2,\"MSG\",\"@\",\"m\"]",
        "9 [2,\"ACK\"]\n7 [0,\">\",\"MSG\",\"@\",\"m\"]\n",
    ),
    (
        9,
        "[3,\"JOIN\",\"@\"]",
        "9 [3,\"ERROR\",\"EJOINED\",\"@\"]\n",
    ),
    (
        9,
        "[4,\"MSG\",\"nobody\",\"m\"]",
        "9 [4,\"ERROR\",\"ENOENT\",\"nobody\"]\n",
    ),
    (9, "hello", "9 [0,\"ERROR\",\"EINVAL\",\"\"]\n"),
];

/// What they say after a message that is too long.
const MORE: [(u64, &str, &str); 5] = [
    (9, "[6,\"NOPE\"]", "9 [6,\"ERROR\",\"EINVAL\",\"\"]\n"),
    (9, "[7,\"PING\"]", "9 [7,\"ACK\"]\n"),
    (
        9,
        "[8,\"MSG\",\"#\",\"[\\\"GET_HISTORY\\\",\\\"@\\\"]\"]",
        "9 [8,\"ACK\"]\n9 [0,\"#\",\"HISTORY\",\"@\",0,\">\",\"m\"]\n9 [0,\"#\",\"HISTORY_END\",\"@\",1]\n",
    ),
    (
        9,
        "[9,\"MSG\",\"#\",\"[\\\"GET\\\"]\"]",
        "9 [9,\"ERROR\",\"EINVAL\",\"\"]\n",
    ),
    (7, "-", "9 [0,\"<\",\"LEAVE\",\"@\",\"Quit\"]\n"),
];

/// All that happens there; the second of them joins as many channels as it may, and one more.
fn talk(alloc: Global) -> Result<Day, Fail> {
    let mut day = Day::new(alloc);
    for (number, said, lines) in TALK {
        day.then(number, said, lines)?;
    }
    day.says(
        9,
        long_message(alloc, TOO_LONG)?,
        "9 [5,\"ERROR\",\"ETOOBIG\",\"@\"]\n",
    )?;
    join_alone(alloc, &mut day, 9, ">", 1..JOINS)?;
    day.then(
        9,
        "[1,\"JOIN\",\"ffffffffffffffffffffffffffffffff\"]",
        "9 [1,\"ERROR\",\"EFULL\",\"ffffffffffffffffffffffffffffffff\"]\n",
    )?;
    for (number, said, lines) in MORE {
        day.then(number, said, lines)?;
    }
    Ok(day)
}

#[test]
fn two_connections_in_a_channel(rt: HostRuntime) -> Result<(), Fail> {
    let alloc = rt.alloc();
    let (events, wanted) = talk(alloc)?.told();
    let outputs = outputs_of(alloc, &mut failing_in(alloc, &[])?, events)?;
    assert_eq!(rt; outputs.len(), wanted.len());
    assert_eq!(rt;
        first_other(alloc, outputs.as_slice(), wanted.as_slice())?,
        None
    );
    Ok(())
}

/// Three messages to the channel, of which the one of this number is refused, and the history; the answer ends with this number of entries.
fn refused(alloc: Global, message: usize, total: usize) -> Result<Day, Fail> {
    let mut day = Day::new(alloc);
    for (number, said, lines) in &TALK[..4] {
        day.then(*number, said, lines)?;
    }
    for place in 0..3usize {
        let said = format!(in alloc; "[2,\"MSG\",\"@\",\"{}\"]", place)?;
        let lines = if place == message {
            String::from_str(alloc, "9 [2,\"ERROR\",\"ESTORE\",\"@\"]\n")?
        } else {
            format!(in alloc; "9 [2,\"ACK\"]\n7 [0,\">\",\"MSG\",\"@\",\"{}\"]\n", place)?
        };
        day.then(9, said.as_str(), lines.as_str())?;
    }
    let end = format!(in alloc;
        "7 [3,\"ACK\"]\n7 [0,\"#\",\"HISTORY_END\",\"@\",{}]\n",
        total
    )?;
    day.then(
        7,
        "[3,\"MSG\",\"#\",\"[\\\"GET_HISTORY_AT\\\",\\\"@\\\",3]\"]",
        end.as_str(),
    )?;
    Ok(day)
}

/// How many calls of the volume so many of the events take of the day on which no message is refused.
fn calls_of(alloc: Global, events: usize) -> Result<u64, Fail> {
    let (all, _wanted) = refused(alloc, 9, 3)?.told();
    let mut first = Vec::new(alloc);
    for event in all.into_iter().take(events) {
        first.push(event)?;
    }
    let mut volume = failing_in(alloc, &[])?;
    let _outputs = outputs_of(alloc, &mut volume, first)?;
    Ok(volume.calls())
}

#[test]
fn a_store_that_fails_is_told_and_the_next_one_is_kept(rt: HostRuntime) -> Result<(), Fail> {
    let alloc = rt.alloc();
    let first = calls_of(alloc, 5)?;
    let second = calls_of(alloc, 6)?;
    // The calls of a store into a loaded channel write its entry, sync it, write its gate, and sync that.
    assert_eq!(rt; second.saturating_sub(first), 4);
    for call in 0..second {
        // The entry is there, and not acknowledged, if nothing but the sync of its gate failed.
        let is_there = call.saturating_add(1) == first || call.saturating_add(1) == second;
        let message = if call < first { 0 } else { 1 };
        let (events, wanted) = refused(alloc, message, if is_there { 3 } else { 2 })?.told();
        let outputs = outputs_of(alloc, &mut failing_in(alloc, &[call])?, events)?;
        assert_eq!(rt; outputs.len(), wanted.len());
        assert_eq!(rt;
            first_other(alloc, outputs.as_slice(), wanted.as_slice())?,
            None,
            "call {call}"
        );
    }
    Ok(())
}

/// As many connections open as may, and one more.
fn open_all(alloc: Global, day: &mut Day) -> Result<(), Fail> {
    for number in 1..=CONNECTIONS {
        let lines = format!(in alloc; "{} [0,\"\",\"IDENT\",\"{:016x}*", number, number)?;
        day.then(number, "+", lines.as_str())?;
    }
    day.then(9_999, "+", "9999 [0,\"ERROR\",\"EFULL\",\"\"]\n9999 -\n")
}

/// A question about the channel of a number, by the third connection, and the answer.
fn ask(alloc: Global, day: &mut Day, channel: u64, answer: &str) -> Result<(), Fail> {
    let said = format!(in alloc;
        "[4,\"MSG\",\"#\",\"[\\\"GET_HISTORY\\\",\\\"{:032x}\\\"]\"]",
        channel
    )?;
    day.then(3, said.as_str(), answer)
}

/// The first two connections are in as many channels as they may, the second behind the first, and the first says something in each.
fn fill_channels(alloc: Global, day: &mut Day) -> Result<(), Fail> {
    join_alone(alloc, day, 1, "<", 0..JOINS)?;
    for channel in 0..JOINS {
        let said = format!(in alloc; "[1,\"JOIN\",\"{:032x}\"]", channel)?;
        let lines = format!(in alloc;
            "2 [1,\"JACK\",\"{:032x}\"]\n2 [0,\"#\",\"JOIN\",\"{:032x}\"]\n2 [0,\"<\",\"JOIN\",\"{:032x}\"]\n2 [0,\">\",\"JOIN\",\"{:032x}\"]\n1 [0,\">\",\"JOIN\",\"{:032x}\"]\n",
            channel, channel, channel, channel, channel
        )?;
        day.then(2, said.as_str(), lines.as_str())?;
        let said = format!(in alloc; "[2,\"MSG\",\"{:032x}\",\"m{}\"]", channel, channel)?;
        let lines = format!(in alloc;
            "1 [2,\"ACK\"]\n2 [0,\"<\",\"MSG\",\"{:032x}\",\"m{}\"]\n",
            channel, channel
        )?;
        day.then(1, said.as_str(), lines.as_str())?;
    }
    let said = format!(in alloc; "[3,\"JOIN\",\"{:032x}\"]", JOINS)?;
    let lines = format!(in alloc; "1 [3,\"ERROR\",\"EFULL\",\"{:032x}\"]\n", JOINS)?;
    day.then(1, said.as_str(), lines.as_str())
}

/// As many channels are loaded as may be. Then one more is asked for and written to, as well as the last one that was loaded.
fn load_all(alloc: Global, day: &mut Day) -> Result<(), Fail> {
    for channel in JOINS..CHANNELS {
        let lines = format!(in alloc;
            "3 [4,\"ACK\"]\n3 [0,\"#\",\"HISTORY_END\",\"{:032x}\",0]\n",
            channel
        )?;
        ask(alloc, day, channel, lines.as_str())?;
    }
    ask(alloc, day, CHANNELS, "3 [4,\"ERROR\",\"EFULL\",\"#\"]\n")?;
    join_alone(
        alloc,
        day,
        3,
        "0000000000000003ccef36a8c70d778b",
        CHANNELS.saturating_sub(1)..CHANNELS.saturating_add(1),
    )?;
    let said = format!(in alloc; "[5,\"MSG\",\"{:032x}\",\"m\"]", CHANNELS)?;
    let lines = format!(in alloc; "3 [5,\"ERROR\",\"EFULL\",\"{:032x}\"]\n", CHANNELS)?;
    day.then(3, said.as_str(), lines.as_str())?;
    let said = format!(in alloc; "[6,\"MSG\",\"{:032x}\",\"m\"]", CHANNELS.saturating_sub(1))?;
    day.then(3, said.as_str(), "3 [6,\"ACK\"]\n")
}

/// A message to the last connection, by its identity in the stream of the key, and to nobody.
const TO_SOMEBODY: [(u64, &str, &str); 2] = [
    (
        1,
        "[7,\"MSG\",\"00000000000004004d5dad64eaaf97fd\",\"m\"]",
        "1 [7,\"ACK\"]\n1024 [0,\"<\",\"MSG\",\"00000000000004004d5dad64eaaf97fd\",\"m\"]\n",
    ),
    (
        1,
        "[8,\"MSG\",\"0000000000000401c05222390a4d9609\",\"m\"]",
        "1 [8,\"ERROR\",\"ENOENT\",\"0000000000000401c05222390a4d9609\"]\n",
    ),
];

/// The second connection leaves a channel and joins another one. Then the first one closes, and another is taken in.
fn part(alloc: Global, day: &mut Day) -> Result<(), Fail> {
    day.then(
        2,
        "[9,\"LEAVE\",\"00000000000000000000000000000000\",\"bye\"]",
        "2 [9,\"ACK\"]\n1 [0,\">\",\"LEAVE\",\"00000000000000000000000000000000\",\"bye\"]\n",
    )?;
    join_alone(alloc, day, 2, ">", JOINS..JOINS.saturating_add(1))?;
    let mut lines = String::new(alloc);
    for channel in 1..JOINS {
        lines.push_str(format!(in alloc;
            "2 [0,\"<\",\"LEAVE\",\"{:032x}\",\"Quit\"]\n",
            channel
        )?.as_str())?;
    }
    day.then(1, "-", lines.as_str())?;
    day.then(1, "[10,\"PING\"]", "")?;
    day.then(
        9_999,
        "+",
        "9999 [0,\"\",\"IDENT\",\"0000000000000401c05222390a4d9609\"]\n",
    )
}

/// A day on which each limit is met, and what comes of what is asked then of two of the channels.
fn full_day(alloc: Global) -> Result<Day, Fail> {
    let mut day = Day::new(alloc);
    open_all(alloc, &mut day)?;
    fill_channels(alloc, &mut day)?;
    load_all(alloc, &mut day)?;
    for (number, said, lines) in TO_SOMEBODY {
        day.then(number, said, lines)?;
    }
    part(alloc, &mut day)?;
    ask(
        alloc,
        &mut day,
        63,
        "3 [4,\"ACK\"]\n3 [0,\"#\",\"HISTORY\",\"0000000000000000000000000000003f\",0,\"<\",\"m63\"]\n3 [0,\"#\",\"HISTORY_END\",\"0000000000000000000000000000003f\",1]\n",
    )?;
    ask(
        alloc,
        &mut day,
        CHANNELS,
        "3 [4,\"ERROR\",\"EFULL\",\"#\"]\n",
    )?;
    Ok(day)
}

#[test]
fn a_day_with_all_limits(rt: HostRuntime) -> Result<(), Fail> {
    let alloc = rt.alloc();
    let (events, wanted) = full_day(alloc)?.told();
    let outputs = outputs_of(alloc, &mut failing_in(alloc, &[])?, events)?;
    assert_eq!(rt; outputs.len(), wanted.len());
    assert_eq!(rt;
        first_other(alloc, outputs.as_slice(), wanted.as_slice())?,
        None
    );
    Ok(())
}
