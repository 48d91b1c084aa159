//! A hub that stops and is reopened, with the keeper over logs.

ghost use Rattle.std.specs.Prelude.{OnOk, IfSome};
ghost use Rattle.world_hub.specs.State.{IsReady, IsNew};

use crate::WorldHub;
use disk_volume::Pick;
use gated_log::Log;
use hub_keeper::{HubKeeper, logs_are_apart};
use netflux_core::Keep;
use pad_edge::Wire;
use serve_loop::{Event, Out, Outs};
use std::alloc::Global;
use std::test::Fail;

/// What is done, and how many texts it gives with the end of the last.
#[derive(Clone, Copy, Drop)]
enum Turn {
    Opens,
    Says(&'static str, usize, &'static str),
    Stops(u32, Pick),
    Reopens,
}

/// How many texts there are, and whether the last ends so.
fn ends_with(outs: &Outs, end: &str) -> (usize, bool) {
    let mut ends = false;
    let mut count = 0usize;
    for out in outs.as_slice() {
        if let Out::Send(_, text) = out {
            count = count.saturating_add(1);
            ends = text.as_str().ends_with(end);
        }
    }
    (count, ends)
}

/// Whether a turn gives what it is to give.
fn goes<K: Keep + Drop>(
    alloc: Global,
    hub: &mut WorldHub<K>,
    turn: Turn,
    next: &mut Option<K>,
) -> Result<bool, Fail>
    requires ready { IsReady (K.is_sound hub.old.keeper) (K.keeps hub.old.keeper) hub.old.hub.rooms hub.old.volume hub.old.was_set }
    requires next { IfSome next.old (λ keeper. IsNew (K.is_sound keeper) (K.keeps keeper)) }
    ensures ready { OnOk result (IsReady (K.is_sound hub.new.keeper) (K.keeps hub.new.keeper) hub.new.hub.rooms hub.new.volume hub.new.was_set) }
    ensures next { IfSome next.new (λ keeper. IsNew (K.is_sound keeper) (K.keeps keeper)) }
{
    match turn {
        Turn::Opens => {
            let outs = hub.step(alloc, Event::Opened(0))?;
            Ok(ends_with(&outs, "\"]") == (1, true))
        }
        Turn::Says(text, count, end) => {
            let text = Wire::new(String::from_str(alloc, text)?);
            let outs = hub.step(alloc, Event::Text(0, text))?;
            Ok(ends_with(&outs, end) == (count, true))
        }
        Turn::Stops(call, pick) => {
            if call == 0 {
                return Ok(false);
            }
            hub.stop_at(call, pick)?;
            Ok(hub.is_stop_set())
        }
        Turn::Reopens => match next.take() {
            Some(keeper) => {
                hub.reopen(alloc, keeper)?;
                Ok(!hub.is_stop_set() && !hub.has_stopped())
            }
            None => Ok(false),
        },
    }
}

/// How many turns give what they are to give, and whether the hub has stopped then.
fn day<K: Keep + Drop>(
    alloc: Global,
    turns: &[Turn],
    first: K,
    second: K,
) -> Result<(usize, bool), Fail>
    requires first { IsNew (K.is_sound first) (K.keeps first) }
    requires second { IsNew (K.is_sound second) (K.keeps second) }
{
    let mut hub = WorldHub::new(alloc, first)?;
    let mut next = Some(second);
    let mut count = 0usize;
    for turn in turns {
        if goes(alloc, &mut hub, *turn, &mut next)? {
            count = count.saturating_add(1);
        }
    }
    Ok((count, hub.has_stopped()))
}

/// The same over logs.
fn logged_day(alloc: Global, turns: &[Turn]) -> Result<(usize, bool), Fail> {
    logs_are_apart::<Log>();
    let first: HubKeeper<Log, Log> = HubKeeper::new(alloc);
    let second: HubKeeper<Log, Log> = HubKeeper::new(alloc);
    day(alloc, turns, first, second)
}

/// Joins the channel.
const JOIN: Turn = Turn::Says(
    "[1,\"JOIN\",\"00112233445566778899aabbccddeeff\"]",
    3,
    "\"JOIN\",\"00112233445566778899aabbccddeeff\"]",
);

/// A message to the channel, which is kept.
const KEPT: Turn = Turn::Says(
    "[2,\"MSG\",\"00112233445566778899aabbccddeeff\",\"n\"]",
    1,
    "[2,\"ACK\"]",
);

#[test]
fn what_was_acknowledged_is_there_after_a_stop(rt: HostRuntime) -> Result<(), Fail> {
    let alloc = rt.alloc();
    let lost = Turn::Says(
        "[3,\"MSG\",\"00112233445566778899aabbccddeeff\",\"m\"]",
        1,
        "\"00112233445566778899aabbccddeeff\"]",
    );
    let asks = Turn::Says(
        "[4,\"MSG\",\"d6df3feffb7815c6\",\"[\\\"GET_HISTORY_AT\\\",\\\"00112233445566778899aabbccddeeff\\\",0]\"]",
        3,
        "\"HISTORY_END\",\"00112233445566778899aabbccddeeff\",1]",
    );
    for pick in [Pick::Old, Pick::New, Pick::Torn(1)] {
        let stops = [Turn::Opens, JOIN, KEPT, Turn::Stops(1, pick), lost];
        assert_eq!(rt; logged_day(alloc, &stops)?, (5, true));
        let reopens = [
            Turn::Opens,
            JOIN,
            KEPT,
            Turn::Stops(1, pick),
            lost,
            Turn::Reopens,
            Turn::Opens,
            JOIN,
            asks,
        ];
        assert_eq!(rt; logged_day(alloc, &reopens)?, (9, false));
    }
    let misses = [
        Turn::Opens,
        JOIN,
        KEPT,
        Turn::Stops(100, Pick::Old),
        Turn::Reopens,
        Turn::Opens,
        JOIN,
        asks,
    ];
    assert_eq!(rt; logged_day(alloc, &misses)?, (8, false));
    Ok(())
}
