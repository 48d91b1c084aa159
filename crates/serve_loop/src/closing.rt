ghost use Rattle.std.specs.Prelude.{◌≡◌, List, ℕ, OnOk, OnErr, IfErr};
ghost use Rattle.serve_loop.specs.Inside.Taken.{IsClosed, IsClosedInPart};

use crate::delivering::deliver;
use crate::event::Event;
use crate::machine::Machine;
use pad_edge::{LinkRefused, Port};
use std::alloc::Global;

/// Closes the connections that wait, one after another, and those whose sends fail meanwhile after them.
pub(crate) fn close_waiting<P: Port, W, M: Machine<W>>(
    alloc: Global,
    port: &mut P,
    machine: &mut M,
    world: &mut W,
    moment: u64,
    mut waiting: Vec<u64>,
) -> Result<(), LinkRefused>
    requires { M.ready machine.old world.old }
    ensures ready { OnOk result (M.ready machine.new world.new) }
    ensures closed { M.tells → (state : M.State) → M.stands machine.old world.old state → OnOk result (IsClosed P.tells M.Step (M.stands machine.new world.new) moment state waiting.items (P.sent port.old) (P.sent port.new) (P.failed port.old) (P.failed port.new)) }
    ensures part { M.tells → (state : M.State) → M.stands machine.old world.old state → OnErr result (IsClosedInPart P.tells M.Step (M.stands machine.new world.new) (λ state moment event. M.breaks state moment event world.new) moment state waiting.items (P.sent port.old) (P.sent port.new) (P.failed port.old) (P.failed port.new)) }
    ensures events { P.tells → P.events port.new ≡ P.events port.old }
    ensures counts { (P.faults port.new ≡ P.faults port.old) × (P.ends port.new ≡ P.ends port.old) }
    ensures leaves { M.leaves world.old world.new }
    ensures refused { IfErr result (λ refused. refused ≡ LinkRefused.NoMemory) }
{
    'closings: while !waiting.is_empty() {
        let connection = waiting.remove(0);
        let Ok(outs) = machine.step(alloc, world, moment, Event::Closed(connection)) else {
            return Err(LinkRefused::NoMemory);
        };
        deliver(port, outs.as_slice(), &mut waiting)?;
    }
    Ok(())
}
