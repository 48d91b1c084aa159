ghost use Rattle.std.specs.Prelude.{◌≡◌};

use disk_volume::Pick;
use netflux_codec::{Channel, Since};
use pad_patch::Operation;

/// How many clients a session has room for. They are numbered from 0.
pub const MOST_CLIENTS: u8 = 64;

/// What a line of a session script commands. A `u8` that comes first is the number of a client.
#[derive(Debug, Drop)]
pub enum SessionAct {
    /// `dial K`: to open a connection for the client.
    Dial(u8),
    /// `hang K`: to close it.
    Hang(u8),
    /// `join K CHANNEL`: to join a channel.
    Join(u8, Channel),
    /// `leave K`: to leave it.
    Leave(u8),
    /// `sync K`: to send the unsent work.
    Sync(u8),
    /// `resend K`: to send again what was not acknowledged.
    Resend(u8),
    /// `repair K`: to repair the chain from the whole history.
    Repair(u8),
    /// `history K`, `history K NAME` or `history K all`: to ask for a history, from a stated entry on.
    History(u8, Since),
    /// `edit K OFFSET REMOVE STRING`: to edit the shown text. Offset and length count UTF-16 units.
    Edit(u8, Operation),
    /// `interval K N`: to set after how many messages the next but one checkpoint may come.
    Interval(u8, u16),
    /// `up K`: the hub handles the first text of the client's up queue.
    Up(u8),
    /// `down K`: the client hears the first text of its down queue.
    Down(u8),
    /// `repeatup K`: a copy of the first text is put last in the up queue.
    RepeatUp(u8),
    /// `repeatdown K`: the same in the down queue.
    RepeatDown(u8),
    /// `loseup K`: the first text of the up queue is thrown away.
    LoseUp(u8),
    /// `losedown K`: the same in the down queue.
    LoseDown(u8),
    /// `run`: all texts are handled.
    Run,
    /// `stop N old`, `stop N new` or `stop N torn B`: this call of the volume, counted from 1, stops within it.
    Stop(u32, Pick),
    /// `reopen`: a new hub goes on over what is left.
    Reopen,
    /// `show K`: to print the client's report.
    Show(u8),
    /// `log CHANNEL`: to print the entries of a channel.
    Log(Channel),
}

impl SessionAct {
    ghost use Rattle.pad_script.specs.Requests.{session_makes_requests};

    /// Whether the command makes a client send requests.
    pub fn makes_requests(&self) -> bool
        ensures { result ≡ session_makes_requests self.now }
    {
        matches!(
            self,
            SessionAct::Join(_, _)
                | SessionAct::Leave(_)
                | SessionAct::History(_, _)
                | SessionAct::Sync(_)
                | SessionAct::Resend(_)
                | SessionAct::Repair(_)
        )
    }
}
