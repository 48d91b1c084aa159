//! A hub with a keeper over logs in memory: a day on a channel of form One, and a stop at each call of the volume in its first store.
ghost use Rattle.std.specs.Prelude.{List, ℕ, IfOk};
ghost use Rattle.disk_volume.specs.Disk.{AtRest};
ghost use Rattle.disk_volume.specs.Memory.{disk_of};

mod day;
mod limits;

use crate::{HubKeeper, logs_are_apart};
use disk_volume::{MemVolume, Pick, Volume};
use gated_log::Log;
use netflux_core::Hub;
use pad_edge::Wire;
use serve_loop::{Event, Out, Outs};
use std::alloc::{AllocError, Global};
use std::test::Fail;

const ONE: &str = "00112233445566778899aabbccddeeff.padlog";

const TWO: &str = "00112233445566778899aabbccddeeff.padlog2";

/// A log of form One with one entry, whose content is `m`.
const OLD: &[u8] = b"PADLOG1\n\x01\0\0\0\x210000000000000001e56a5d4028bd8653m\0";

/// It at the moment 0, the marker, and `n` at the moment 3, in form Two.
const MOVED: &[u8] =
    b"PADLOG2\n\x01\0\0\0\x29\0\0\0\0\0\0\0\00000000000000001e56a5d4028bd8653m\x01\0\0\0\0\x01\0\0\0\x29\0\0\0\0\0\0\0\x030000000000000001e56a5d4028bd8653n\0";

/// What a connection says, and the texts that go out then, a line each.
#[derive(Clone, Copy, Drop)]
struct Turn {
    said: &'static str,
    lines: &'static str,
}

/// The connection opens and joins the channel.
const JOINS: [Turn; 2] = [
    Turn {
        said: "+",
        lines: "7 [0,\"\",\"IDENT\",\"<\"]\n",
    },
    Turn {
        said: "[1,\"JOIN\",\"@\"]",
        lines: "7 [1,\"JACK\",\"@\"]\n7 [0,\"#\",\"JOIN\",\"@\"]\n7 [0,\"<\",\"JOIN\",\"@\"]\n",
    },
];

/// What comes after that.
const DAY: [Turn; 5] = [
    Turn {
        said: "[2,\"MSG\",\"@\",\"n\"]",
        lines: "7 [2,\"ACK\"]\n",
    },
    Turn {
        said: "[3,\"MSG\",\"#\",\"[\\\"GET_HISTORY_AT\\\",\\\"@\\\",0]\"]",
        lines: "7 [3,\"ACK\"]\n7 [0,\"#\",\"ENTRY\",\"@\",0,0,\"<\",\"m\"]\n7 [0,\"#\",\"ENTRY\",\"@\",1,3,\"<\",\"n\"]\n7 [0,\"#\",\"HISTORY_END\",\"@\",2]\n",
    },
    Turn {
        said: "[4,\"MSG\",\"#\",\"[\\\"GET_HISTORY_AT\\\",\\\"@\\\",1]\"]",
        lines: "7 [4,\"ACK\"]\n7 [0,\"#\",\"ENTRY\",\"@\",1,3,\"<\",\"n\"]\n7 [0,\"#\",\"HISTORY_END\",\"@\",2]\n",
    },
    Turn {
        said: "[5,\"MSG\",\"#\",\"[\\\"GET_HISTORY\\\",\\\"@\\\"]\"]",
        lines: "7 [5,\"ACK\"]\n7 [0,\"#\",\"HISTORY\",\"@\",0,\"<\",\"m\"]\n7 [0,\"#\",\"HISTORY\",\"@\",1,\"<\",\"n\"]\n7 [0,\"#\",\"HISTORY_END\",\"@\",2]\n",
    },
    Turn {
        said: "[6,\"MSG\",\"#\",\"[\\\"GET_HISTORY\\\",\\\"@\\\",\\\"@@\\\"]\"]",
        lines: "7 [6,\"ACK\"]\n7 [0,\"#\",\"HISTORY_UNKNOWN\",\"@\",\"@@\"]\n",
    },
];

/// A text with `@` for the channel's digits, `#` for the keeper's, and `<` and `>` for those of the first two connections.
fn spelled(alloc: Global, text: &str) -> Result<String, Fail> {
    let mut whole = String::new(alloc);
    for sign in text.chars() {
        match sign {
            '@' => whole.push_str("00112233445566778899aabbccddeeff")?,
            '#' => whole.push_str("ade0b876903df1a0")?,
            '<' => whole.push_str("0000000000000001e56a5d4028bd8653")?,
            '>' => whole.push_str("0000000000000002b819d2bd1aed8da0")?,
            other => whole.push(other)?,
        }
    }
    Ok(whole)
}

/// The connection and the text of each output, a line each.
fn lines_of(alloc: Global, outs: &Outs) -> Result<String, Fail> {
    let mut lines = String::new(alloc);
    for out in outs.as_slice() {
        match out {
            Out::Send(number, text) => {
                lines.push_str(format!(in alloc; "{} {}\n", number, text.as_str())?.as_str())?;
            }
            Out::HangUp(number) => {
                lines.push_str(format!(in alloc; "{} -\n", number)?.as_str())?;
            }
        }
    }
    Ok(lines)
}

/// The events of some turns, the moment of each of which is its place from 1. Connection 7 opens at `+`.
fn events_of(alloc: Global, turns: &[Turn]) -> Result<Vec<(u64, Event)>, Fail> {
    let mut events = Vec::new(alloc);
    let mut moment = 0u64;
    for turn in turns {
        moment = moment.saturating_add(1);
        let event = match turn.said {
            "+" => Event::Opened(7),
            said => Event::Text(7, Wire::new(spelled(alloc, said)?)),
        };
        events.push((moment, event))?;
    }
    Ok(events)
}

/// What a new hub gives of some events, with a new keeper over a volume with nothing pending.
fn outputs_of(
    alloc: Global,
    volume: &mut MemVolume,
    events: Vec<(u64, Event)>,
) -> Result<Vec<Outs>, AllocError>
    requires rests { (file : List ℕ) → AtRest (disk_of volume.old) file }
{
    logs_are_apart::<Log>();
    let mut hub = Hub::new(alloc, [0; 32], 0)?;
    let mut keeper: HubKeeper<Log, Log> = HubKeeper::new(alloc);
    hub.run(alloc, &mut keeper, volume, events)
}

/// The volume that a stop left, with nothing pending.
fn left_by(alloc: Global, volume: &MemVolume) -> Result<MemVolume, AllocError>
    ensures { IfOk result (λ left. (file : List ℕ) → AtRest (disk_of left) file) }
{
    let left = volume.image(alloc)?;
    Ok(left)
}

/// A volume with the channel in form One.
fn old_volume(alloc: Global) -> Result<MemVolume, Fail> {
    let mut volume = MemVolume::new(alloc, Vec::new(alloc));
    volume.write_at(ONE, 0, OLD)?;
    Ok(volume)
}

/// The bytes of a file.
fn bytes_of(alloc: Global, volume: &mut MemVolume, file: &str) -> Result<Vec<u8>, Fail> {
    let size = volume.length(file)? as usize;
    let mut bytes = vec![in alloc; 0; size]?;
    let count = volume.read_at(file, 0, &mut bytes)?;
    bytes.truncate(count);
    Ok(bytes)
}

/// These turns behind those that join the channel.
fn joined(alloc: Global, turns: &[Turn]) -> Result<Vec<Turn>, AllocError> {
    let mut all = Vec::new(alloc);
    all.extend_from_slice(&JOINS)?;
    all.extend_from_slice(turns)?;
    Ok(all)
}

#[test]
fn a_day_on_a_channel_of_form_one(rt: HostRuntime) -> Result<(), Fail> {
    let alloc = rt.alloc();
    let mut volume = left_by(alloc, &old_volume(alloc)?)?;
    let turns = joined(alloc, &DAY)?;
    let outputs = outputs_of(alloc, &mut volume, events_of(alloc, turns.as_slice())?)?;
    assert_eq!(rt; outputs.len(), turns.len());
    for (turn, outs) in turns.iter().zip(outputs.iter()) {
        assert_eq!(rt;
            lines_of(alloc, outs)?.as_str(),
            spelled(alloc, turn.lines)?.as_str()
        );
    }
    assert_eq!(rt; bytes_of(alloc, &mut volume, ONE)?.as_slice(), OLD);
    assert_eq!(rt; bytes_of(alloc, &mut volume, TWO)?.as_slice(), MOVED);
    Ok(())
}

/// How many entries the channel has, by the end of its history in the last outputs.
fn total_of(alloc: Global, outputs: &[Outs]) -> Result<Option<usize>, Fail> {
    let Some(outs) = outputs.last() else {
        return Ok(None);
    };
    let lines = lines_of(alloc, outs)?;
    for total in 0..4usize {
        let end = format!(in alloc; "7 [0,\"#\",\"HISTORY_END\",\"@\",{}]\n", total)?;
        if lines
            .as_str()
            .ends_with(spelled(alloc, end.as_str())?.as_str())
        {
            return Ok(Some(total));
        }
    }
    Ok(None)
}

/// Whether the message was acknowledged in a day with a stop in this call, and how many entries a hub finds behind it.
fn stopped(alloc: Global, call: u64, pick: Pick) -> Result<(bool, Option<usize>), Fail> {
    let mut volume = left_by(alloc, &old_volume(alloc)?)?;
    volume.stop_at(call, pick);
    let stored = joined(alloc, &DAY[..1])?;
    let outputs = outputs_of(alloc, &mut volume, events_of(alloc, stored.as_slice())?)?;
    let acked = match outputs.last() {
        Some(outs) => { lines_of(alloc, outs)?.as_str() == spelled(alloc, DAY[0].lines)?.as_str() }
        None => false,
    };
    let mut image = left_by(alloc, &volume)?;
    let asked = joined(alloc, &DAY[1..2])?;
    let found = outputs_of(alloc, &mut image, events_of(alloc, asked.as_slice())?)?;
    Ok((acked, total_of(alloc, found.as_slice())?))
}

/// How many calls of the volume a first store makes, with the load before it.
fn calls(alloc: Global) -> Result<u64, Fail> {
    let mut volume = left_by(alloc, &old_volume(alloc)?)?;
    let stored = joined(alloc, &DAY[..1])?;
    let _outputs = outputs_of(alloc, &mut volume, events_of(alloc, stored.as_slice())?)?;
    Ok(volume.calls())
}

#[test]
fn a_stop_in_a_first_store_loses_nothing(rt: HostRuntime) -> Result<(), Fail> {
    let alloc = rt.alloc();
    let all = calls(alloc)?;
    for call in 0..all.saturating_add(1) {
        for (number, pick) in [Pick::Old, Pick::New, Pick::Torn(0x37), Pick::Torn(1)]
            .iter()
            .enumerate()
        {
            // The last two calls write and sync the gate of the entry.
            let is_there = call >= all || (call >= all.saturating_sub(2) && number % 2 == 1);
            let total = if is_there { 2 } else { 1 };
            assert_eq!(rt;
                stopped(alloc, call, *pick)?,
                (call >= all, Some(total)),
                "call {call}, {pick:?}"
            );
        }
    }
    Ok(())
}
