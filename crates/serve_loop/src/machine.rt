ghost use Rattle.std.specs.Prelude.{◌≡◌, List, ℕ, IfOk, OnOk, OnErr};
ghost use Rattle.serve_loop.specs.Connected.{ClosesAlone};
ghost use Rattle.serve_loop.specs.Hangs.{HangsBehind};
ghost use Rattle.serve_loop.specs.declared.event.Event.{Event};
ghost use Rattle.serve_loop.specs.declared.out.Out.{Out};

use crate::event::Event;
use crate::out::Outs;
use std::alloc::{AllocError, Global};

/// What answers the events of a port, step by step, and acts on a world (say, the files of a folder) as it does.
pub trait Machine<W> {
    /// Whether contracts know what the world holds. If they do not, they know no states.
    ghost tells: { Type 0 };

    /// The states of the machine that it is an implementation of, its world among them.
    ghost State: { Type 0 };

    /// A step of that machine: from a state, at a moment in seconds since 1970, by an event, to outputs and the next state.
    ghost Step: { State → ℕ → Event → List Out → State → Type 0 };

    /// The machine and its world are in this state.
    ghost stands: { Self → W → State → Type 0 };

    /// What a step needs of machine and world, whether the world tells or not.
    ghost ready: { Self → W → Type 0 };

    /// What a step that wanted memory leaves: from a state, at a moment, by an event, this world. The machine may only be dropped then.
    ghost breaks: { State → ℕ → Event → W → Type 0 };

    /// What steps, however many, leave of a world, whether it tells or not: of the first by the time of the second.
    ghost leaves: { W → W → Type 0 };

    /// The connections that are open, for the machine.
    ghost connected: { Self → List ℕ };

    /// Takes an event. A closing closes its connection alone, and its outputs go to connections that are open after it. After want of memory
    /// the machine may only be dropped.
    fn step(
        &mut self,
        alloc: Global,
        world: &mut W,
        moment: u64,
        event: Event,
    ) -> Result<Outs, AllocError>
        requires { ready self.old world.old }
        ensures ready { OnOk result (ready self.new world.new) }
        ensures step { tells → (state : State) → stands self.old world.old state → IfOk result (λ outs.
            (next : State) × Step state moment event outs next × stands self.new world.new next) }
        ensures broken { tells → (state : State) → stands self.old world.old state → OnErr result (breaks state moment event world.new) }
        ensures leaves { leaves world.old world.new }
        ensures hangs { IfOk result (λ outs. HangsBehind outs) }
        ensures closes { IfOk result (λ outs. ClosesAlone event (connected self.old) (connected self.new) outs) };

    /// No step leaves a world as it is.
    ghost leaves_itself: { (world : W) → leaves world world };

    /// First some steps and then some more are steps too.
    ghost leaves_on: { (before mid now : W) → leaves before mid → leaves mid now → leaves before now };
}
