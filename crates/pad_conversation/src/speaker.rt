ghost use Rattle.std.specs.Prelude.{◌≡◌, ℕ, List, ◌∷◌, OnOk, IfOk, IfErr};
ghost use Rattle.pad_conversation.specs.Machine.{Machine};

use crate::refused::SpeakerRefused;
use crate::said::Said;
use pad_edge::Wire;
use std::alloc::Global;

/// What carries out commands over a link: it is told a command or a text, and gives texts and lines.
pub trait Speaker<C> {
    /// The states of the machine that it is an implementation of.
    ghost State: { Type 0 };

    /// That machine.
    ghost machine: { Machine State C };

    /// The speaker is in this state.
    ghost stands: { Self → State → Type 0 };

    /// It has numbers left for these commands.
    ghost lasts: { Self → List C → Type 0 };

    /// Carries out a command: the texts that are to be sent then, and the lines that are to be written after that.
    fn command(&mut self, alloc: Global, command: &C) -> Result<Said, SpeakerRefused>
        requires { (rest : List C) × lasts self.old (command.now ∷ rest) }
        ensures lasts { OnOk result ((rest : List C) → lasts self.old (command.now ∷ rest) → lasts self.new rest) }
        ensures does { IfOk result (λ said. (state : State) → stands self.old state → machine.may_do state command.now
            → (next : State) × machine.does state command.now said.texts said.lines next × stands self.new next) }
        ensures full { IfErr result (λ refused. refused ≡ SpeakerRefused.Full → (state : State) → stands self.old state → machine.overfills state command.now) };

    /// Hears a text: the lines that are to be written then.
    fn hear(&mut self, alloc: Global, text: &str) -> Result<Wire, SpeakerRefused>
        ensures lasts { OnOk result ((rest : List C) → lasts self.old rest → lasts self.new rest) }
        ensures hears { IfOk result (λ lines. (state : State) → stands self.old state → machine.may_hear state text.now
            → (next : State) × machine.hears state text.now lines next × stands self.new next) }
        ensures full { IfErr result (λ refused. refused ≡ SpeakerRefused.Full → (state : State) → stands self.old state → machine.overflows state text.now) };

    /// Whether it still has to hear a text before the next command.
    fn waits(&self) -> bool
        ensures { (state : State) → stands self.now state → result ≡ machine.waits state };
}
