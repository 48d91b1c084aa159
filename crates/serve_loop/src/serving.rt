ghost use Rattle.std.specs.Prelude.{◌≡◌, ◌≤◌, ◌⊎◌, List, ℕ, [], ◌∷◌, ◌++◌, Ok, OnOk, OnErr, IfOk, IfErr};
ghost use Rattle.pad_edge.specs.Count.{CountsIf, Rose};
ghost use Rattle.pad_edge.specs.Link.{is_failed};
ghost use Rattle.pad_edge.specs.declared.port_event.PortEvent.{PortEvent};
ghost use Rattle.serve_loop.specs.Inside.Taken.{IsTaken, IsTakenInPart};
ghost use Rattle.serve_loop.specs.Run.{heard, AreCalls, IsServed, IsTurns};
ghost use Rattle.serve_loop.specs.Stop.{IsStopped};

use crate::closing::close_waiting;
use crate::delivering::deliver;
use crate::event::Event;
use crate::machine::Machine;
use pad_edge::{Clock, LinkRefused, Port, PortEvent};
use std::alloc::Global;

/// What a machine hears of what a port gives.
fn hear(event: PortEvent) -> Option<Event>
    ensures { result ≡ heard event }
{
    match event {
        PortEvent::Opened(connection) => Some(Event::Opened(connection)),
        PortEvent::Text(connection, text) => Some(Event::Text(connection, text)),
        PortEvent::Closed(connection) => Some(Event::Closed(connection)),
        PortEvent::Idle | PortEvent::Ended => None,
    }
}

/// Takes one event of a port: its step, the outputs of that, and the closing of the connections whose sends failed.
fn take_event<P: Port, W, M: Machine<W>>(
    alloc: Global,
    port: &mut P,
    machine: &mut M,
    world: &mut W,
    moment: u64,
    event: PortEvent,
) -> Result<(), LinkRefused>
    requires { M.ready machine.old world.old }
    ensures ready { OnOk result (M.ready machine.new world.new) }
    ensures taken { M.tells → (state : M.State) → M.stands machine.old world.old state → OnOk result (IsTaken P.tells M.Step (M.stands machine.new world.new) moment state event (P.sent port.old) (P.sent port.new) (P.failed port.old) (P.failed port.new)) }
    ensures part { M.tells → (state : M.State) → M.stands machine.old world.old state → OnErr result (IsTakenInPart P.tells M.Step (M.stands machine.new world.new) (λ state moment event. M.breaks state moment event world.new) moment state event (P.sent port.old) (P.sent port.new) (P.failed port.old) (P.failed port.new)) }
    ensures events { P.tells → P.events port.new ≡ P.events port.old }
    ensures counts { (P.faults port.new ≡ P.faults port.old) × (P.ends port.new ≡ P.ends port.old) }
    ensures leaves { M.leaves world.old world.new }
    ensures refused { IfErr result (λ refused. refused ≡ LinkRefused.NoMemory) }
{
    let event = match hear(event) {
        Some(event) => event,
        None => return Ok(()),
    };
    let Ok(outs) = machine.step(alloc, world, moment, event) else {
        return Err(LinkRefused::NoMemory);
    };
    let mut waiting = Vec::new(alloc);
    deliver(port, outs.as_slice(), &mut waiting)?;
    close_waiting(alloc, port, machine, world, moment, waiting)
}

/// Serves a port for so many calls of `next`, or until it ended, and answers how many were made. The clock is asked once for each event.
/// A send that fails never ends it: that connection is hung up at once, all that comes later for it is left out, and once the other
/// outputs are sent the machine hears that it was closed. `Failed` comes only from `next`; want of memory may come from each call.
pub fn serve<P: Port, W, M: Machine<W>, C: Clock>(
    alloc: Global,
    port: &mut P,
    machine: &mut M,
    world: &mut W,
    clock: &mut C,
    turns: u64,
) -> Result<u64, LinkRefused>
    requires { M.ready machine.old world.old }

    // Where the world tells: it did a run of the machine. Where the port tells too: over the events that were given, and that is what went out.
    ensures served { M.tells → (state : M.State) → M.stands machine.old world.old state → IfOk result (λ made. IsServed M.Step (M.stands machine.new world.new) state turns made P.tells C.tells (C.coming clock.old) (P.events port.old) (P.events port.new) (P.sent port.old) (P.sent port.new) (P.failed port.old) (P.failed port.new)) }
    ensures stopped { M.tells → (state : M.State) → M.stands machine.old world.old state → OnErr result (IsStopped M.Step (M.stands machine.new world.new) (λ state moment event. M.breaks state moment event world.new) state turns P.tells C.tells (C.coming clock.old) (P.events port.old) (P.events port.new) (P.sent port.old) (P.sent port.new) (P.failed port.old) (P.failed port.new)) }

    // Where the port tells, whether the world does or not.
    ensures calls { P.tells → (events : List PortEvent) × (P.events port.new ≡ P.events port.old ++ events) × AreCalls turns events }
    ensures turns { P.tells → IfOk result (λ made. (events : List PortEvent) × (P.events port.new ≡ P.events port.old ++ events) × IsTurns turns made events) }

    // Whether they tell or not.
    ensures made { IfOk result (λ made. made ≤ turns) }
    ensures ended { IfOk result (λ made. (made ≡ turns) ⊎ Rose (P.ends port.old) (P.ends port.new)) }
    ensures cause { CountsIf (is_failed result) (P.faults port.old) (P.faults port.new) }
    ensures leaves { M.leaves world.old world.new }
{
    for turn in 0..turns {
        let event = port.next()?;
        let moment = clock.now();
        let last = event.is_end();
        take_event(alloc, port, machine, world, moment, event)?;
        if last {
            return Ok(turn + 1);
        }
    }
    Ok(turns)
}
