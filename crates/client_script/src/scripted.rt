ghost use Rattle.std.specs.Prelude.{◌≡◌, ◌<◌, ◌≤◌, ◌^◌, List, ℕ, length, IfOk};
ghost use Rattle.pad_script.specs.declared.act.Act.{Act};
ghost use Rattle.pad_script.specs.declared.command.Command.{Command};
ghost use Rattle.pad_script.specs.Act.{Says};
ghost use Rattle.pad_script.specs.Requests.{AreFew, makes_requests};
ghost use Rattle.pad_script.specs.Script.{IsScript};
ghost use Rattle.client_script.specs.Script.{Lasts};
ghost use Rattle.client_script.specs.State.{Scripted, new_scripted};
ghost use Rattle.client_script.specs.View.{StandsFor};

use crate::hearing::Hearing;
use crate::saying::{heard_line, says, says_nothing};
use pad_client::{Client, HearRefused};
use pad_conversation::{Said, Speaker, SpeakerRefused};
use pad_edge::Wire;
use pad_patch::{Steps, UnitStore};
use pad_script::{Act, Command, requests_are_bounded};
use std::alloc::{AllocError, Global};
use std::sync::ledger::{Blank, Ledger};

mod calls;

/// A client, and what the last line still has to hear. It counts its steps.
#[derive(Drop)]
pub struct ScriptedClient<S: UnitStore, L: Ledger> {
    pub(crate) client: Client<S>,
    pub(crate) steps: Steps<L>,
    pub(crate) hearing: Hearing,
}

impl<S: UnitStore, L: Ledger> ScriptedClient<S, L> {
    /// A new client that has nothing to hear.
    pub fn new(alloc: Global, blank: Blank) -> Result<ScriptedClient<S, L>, AllocError>
        requires name { blank.name ≡ L.name }
        requires parts { blank.parts ≡ L.parts }
        requires some { 0 < blank.parts }
        ensures stands { IfOk result (λ scripted. StandsFor scripted.client scripted.hearing new_scripted) }
        ensures lasts { IfOk result (λ scripted. (bytes : List ℕ) (commands : List (Command Act)) → IsScript Says bytes commands → AreFew makes_requests bytes commands
            → length bytes ≤ 2 ^ 28 → Lasts scripted.client commands) }
    {
        requests_are_bounded();
        let client = Client::new(alloc)?;
        Ok(ScriptedClient {
            client,
            steps: Steps::new(blank),
            hearing: Hearing::Nothing,
        })
    }
}

impl<S: UnitStore, L: Ledger> Speaker<Command<Act>> for ScriptedClient<S, L> {
    ghost use Rattle.std.specs.Prelude.{◌≡◌};
    ghost use Rattle.client_script.specs.State.{Scripted, is_hearing};
    ghost use Rattle.client_script.specs.Script.{Does, HearsText, Overfills, Overflows, MayDo, MayHear, Lasts};
    ghost use Rattle.client_script.specs.View.{StandsFor};

    ghost State = { Scripted };

    ghost machine = { record { does = Does; hears = HearsText; waits = is_hearing; overfills = Overfills; overflows = Overflows; may_do = MayDo; may_hear = MayHear } };

    ghost stands = { λ scripted state. StandsFor scripted.client scripted.hearing state };

    ghost lasts = { λ scripted commands. Lasts scripted.client commands };

    fn command(&mut self, alloc: Global, command: &Command<Act>) -> Result<Said, SpeakerRefused> {
        self.hearing = Hearing::Nothing;
        let line = command.line;
        match &command.act {
            Act::Join(channel) => Ok(self.join(alloc, line, *channel)?),
            Act::Leave => Ok(self.leave(alloc, line)?),
            Act::History(from) => Ok(self.history(alloc, line, *from)?),
            Act::Edit(op) => Ok(self.edit(alloc, line, op)?),
            Act::Sync => self.sync(alloc, line),
            Act::Resend => Ok(self.resend(alloc, line)?),
            Act::Settle => {
                self.hearing = Hearing::Settle;
                Ok(says_nothing(alloc))
            }
            Act::Hear(count) => {
                self.hearing = Hearing::Texts(*count);
                Ok(says_nothing(alloc))
            }
            Act::Repair => Ok(self.repair(alloc, line)?),
            Act::Interval(messages) => {
                self.client.set_interval(*messages);
                Ok(says_nothing(alloc))
            }
            Act::Show => Ok(says(alloc, self.client.show(alloc)?)),
        }
    }

    fn hear(&mut self, alloc: Global, text: &str) -> Result<Wire, SpeakerRefused> {
        match self.client.hear(alloc, text, &mut self.steps) {
            Ok(heard) => {
                self.hearing = self.hearing.after(&heard);
                Ok(heard_line(alloc, &heard)?)
            }
            Err(HearRefused::Full) => Err(SpeakerRefused::Full),
            Err(HearRefused::NoMemory(_)) => Err(SpeakerRefused::NoMemory),
        }
    }

    fn waits(&self) -> bool {
        self.hearing.waits(self.client.outbox_awaits())
    }
}
