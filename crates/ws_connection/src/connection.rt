ghost use Rattle.std.specs.Prelude.{◌≡◌, ◌+◌, ◌≤◌, ◌⊎◌, ◌++◌, [], IfOk, IsErr, IsErrOf, IsTrue, OnOk};
ghost use Rattle.pad_edge.specs.declared.link_refused.LinkRefused.TheVariants as refused;
ghost use Rattle.ws_connection.specs.Sending.{text_frame, IsLeft, IsNew, KeepsRefusal};
ghost use Rattle.ws_outbox.specs.Outbox.{to_send, unsent, judged};

use crate::frames::{close_frame, text_frame};
use crate::heard::Heard;
use crate::inbox::{Came, Inbox};
use crate::settings::settings;
use mio::net::TcpStream;
use mio::{Interest, Registry, Token};
use pad_edge::LinkRefused;
use std::alloc::Global;
use std::io::{self, ErrorKind, Read, Write};
use std::marker::Model;
use std::net::Shutdown;
use websocket::protocol::{CloseCode, Role, WebSocketContext};
use ws_outbox::Outbox;

/// How many writes a connection makes in one turn.
const WRITES_A_TURN: usize = 64;

/// How many reads a connection makes in one turn.
const READS_A_TURN: usize = 16;

/// How many bytes each read takes of a connection that is hung up.
const LAST_READ_BYTES: usize = 4096;

/// For how many turns the other end of a connection that is hung up may go on sending: together 32 MiB.
const LAST_TURNS: u32 = 512;

/// How far a connection is with its end.
#[derive(Clone, Copy)]
enum Stage {
    /// It is open.
    Open,
    /// It is hung up: what waits goes out, a close at its end.
    Closing,
    /// All went out. So many more turns are given to the other end to close too.
    Leaving(u32),
    /// Nothing goes over it any more.
    Lost,
}

/// What came of writing.
#[derive(Clone, Copy)]
enum Written {
    /// Nothing waits any more.
    All,
    /// More can go out at once.
    Part,
    /// The system takes no more for now.
    Blocked,
    /// The connection is lost.
    Failed,
}

/// A connection whose handshake was done. Contracts see what waits to go out.
#[derive(Drop)]
pub struct Connection {
    alloc: Global,
    stream: TcpStream,
    context: WebSocketContext,
    inbox: Inbox,
    outbox: Outbox,
    // A reply to a ping waits. Nothing is read meanwhile, so that replies do not pile up.
    has_reply: bool,
    // More can go out at once.
    is_left: bool,
    stage: Stage,
}

impl Model for Connection {
    ghost use Rattle.ws_outbox.specs.Outbox.{Outgoing};

    ghost Value = { Outgoing };

    ghost view = { λ connection. connection.outbox };
}

impl Connection {
    /// An open connection, over which this response goes out first. What the inbox has was sent behind the request.
    pub(crate) fn new(
        alloc: Global,
        stream: TcpStream,
        inbox: Inbox,
        response: Vec<u8>,
    ) -> Result<Connection, LinkRefused>
        ensures begins { IfOk result (λ connection. IsNew connection) }
    {
        let mut connection = Connection {
            alloc,
            stream,
            context: WebSocketContext::new(alloc, Role::Server, settings()),
            inbox,
            outbox: Outbox::new(alloc),
            has_reply: false,
            is_left: false,
            stage: Stage::Open,
        };
        let room = connection.outbox.room();
        connection.queue(response, room)?;
        Ok(connection)
    }

    /// Lets the system say under this token when it is ready.
    pub fn watch(&mut self, registry: &Registry, token: Token) -> io::Result<()>
        ensures { self.new ≡ self.old }
    {
        registry.reregister(
            &mut self.stream,
            token,
            Interest::READABLE | Interest::WRITABLE,
        )
    }

    /// How many bytes wait, the heads of frames among them.
    pub fn unsent(&self) -> usize
        ensures { result ≡ unsent self.now }
    {
        self.outbox.unsent()
    }

    /// Whether it is to be given a turn though the system does not say that it is ready: more can go out at once, or its loss is to
    /// be told.
    pub fn wants_turn(&self) -> bool {
        self.is_left || matches!(self.stage, Stage::Lost)
    }

    /// Sends a text, or lets it wait behind others. At most `room` bytes are added to those that wait. If more would be, or if more
    /// than `UNSENT_BYTES` waited at the first look in this turn, it is refused, and so is each later one. A text that
    /// the system took in part, and whose rest finds no room, is the connection's loss.
    pub fn send(&mut self, turn: u64, text: &str, room: usize) -> Result<(), LinkRefused>
        ensures room { unsent self.new ≤ unsent self.old + room }
        ensures sent { OnOk result (IsLeft (to_send self.old ++ text_frame text.now) (to_send self.new)) }
        ensures slow { IsTrue (judged turn self.old).refuses → IsErrOf result refused.Failed }
        ensures refused { IsErrOf result refused.Failed → IsTrue self.new.refuses }
        ensures failed { IsErr result → (to_send self.new ≡ to_send self.old) ⊎ (to_send self.new ≡ []) }
        ensures look { OnOk result (KeepsRefusal (judged turn self.old) self.new) }
        ensures kept { KeepsRefusal (judged turn self.old) self.new ⊎ IsTrue self.new.refuses }
    {
        self.outbox.judge(turn);
        if self.outbox.refuses() || !matches!(self.stage, Stage::Open) {
            self.outbox.refuse();
            return Err(LinkRefused::Failed);
        }
        let frame = text_frame(self.alloc, text)?;
        if self.outbox.is_empty() {
            return self.send_now(frame, room);
        }
        let answer = self.queue(frame, room);
        if matches!(answer, Err(LinkRefused::Failed)) {
            self.outbox.refuse();
        }
        answer
    }

    /// Sends a frame behind which none waits.
    fn send_now(&mut self, frame: Vec<u8>, room: usize) -> Result<(), LinkRefused>
        ensures room { unsent self.new ≤ unsent self.old + room }
        ensures sent { OnOk result (IsLeft (to_send self.old ++ frame.items) (to_send self.new)) }
        ensures refused { IsErr result → IsTrue self.new.refuses }
        ensures failed { IsErr result → (to_send self.new ≡ to_send self.old) ⊎ (to_send self.new ≡ []) }
        ensures kept { OnOk result (KeepsRefusal self.old self.new) }
    {
        let before = self.outbox.unsent();
        let all = self.outbox.room();
        if let Err(refused) = self.queue(frame, all) {
            self.outbox.refuse();
            return Err(refused);
        }
        let written = self.write_some();
        if matches!(written, Written::Failed)
            || self.outbox.unsent() > before.saturating_add(room)
        {
            self.lose();
            return Err(LinkRefused::Failed);
        }
        Ok(())
    }

    /// Lets a frame wait behind the others, if it has at most `room` bytes.
    fn queue(&mut self, frame: Vec<u8>, room: usize) -> Result<(), LinkRefused>
        ensures added { unsent self.new ≤ unsent self.old + room }
        ensures sent { OnOk result (to_send self.new ≡ to_send self.old ++ frame.items) }
        ensures failed { IsErr result → to_send self.new ≡ to_send self.old }
        ensures same { IsErr result → unsent self.new ≡ unsent self.old }
        ensures kept { KeepsRefusal self.old self.new }
    {
        if frame.is_empty() {
            return Ok(());
        }
        if frame.len() > room || frame.len() > self.outbox.room() {
            return Err(LinkRefused::Failed);
        }
        self.outbox.push(frame)?;
        Ok(())
    }

    /// Nothing goes over it any more.
    fn lose(&mut self)
        ensures nothing { (to_send self.new ≡ []) × (unsent self.new ≡ 0) }
        ensures refused { IsTrue self.new.refuses }
    {
        self.outbox = Outbox::new(self.alloc);
        self.outbox.refuse();
        self.stage = Stage::Lost;
    }

    /// Hangs up: what waits goes out, and then a close. It answers whether the connection was not hung up before.
    pub fn hang_up(&mut self, room: usize) -> bool
        ensures room { unsent self.new ≤ unsent self.old + room }
        ensures kept { KeepsRefusal self.old self.new }
    {
        match self.stage {
            Stage::Open => {
                self.close(CloseCode::Normal, room);
                true
            }
            Stage::Lost => true,
            Stage::Closing | Stage::Leaving(_) => false,
        }
    }

    /// Nothing is taken any more. A close with this code is put behind what waits, if there are memory and room for it.
    fn close(&mut self, code: CloseCode, room: usize)
        ensures room { unsent self.new ≤ unsent self.old + room }
        ensures kept { KeepsRefusal self.old self.new }
    {
        self.stage = Stage::Closing;
        if let Some(frame) = close_frame(self.alloc, code) {
            let _ = self.queue(frame, room);
        }
    }

    /// Writes what waits, and reads at most one frame. If more than `UNSENT_BYTES` waited before, and this is the first look in this turn,
    /// each later send is refused.
    pub fn take_turn(&mut self, turn: u64, room: usize) -> Heard
        ensures room { unsent self.new ≤ unsent self.old + room }
        ensures look { KeepsRefusal (judged turn self.old) self.new }
    {
        self.outbox.judge(turn); // before anything goes out
        match self.stage {
            Stage::Open => self.take_open_turn(room),
            Stage::Closing => self.send_rest(),
            Stage::Leaving(turns) => self.leave(turns),
            Stage::Lost => Heard::Lost,
        }
    }

    /// Writes what waits, and reads, unless a reply waits.
    fn take_open_turn(&mut self, room: usize) -> Heard
        ensures room { unsent self.new ≤ unsent self.old + room }
        ensures kept { KeepsRefusal self.old self.new }
    {
        if matches!(self.write_some(), Written::Failed) {
            return Heard::Lost;
        }
        let heard = if self.has_reply {
            Heard::Blocked
        } else {
            self.hear(room)
        };
        match heard {
            Heard::Blocked if self.is_left => Heard::More,
            heard => heard,
        }
    }

    /// Reads a frame.
    fn hear(&mut self, room: usize) -> Heard
        ensures room { unsent self.new ≤ unsent self.old + room }
        ensures kept { KeepsRefusal self.old self.new }
    {
        for _ in 0..READS_A_TURN {
            let mut reply = Vec::new(self.alloc);
            match self.inbox.next(self.alloc, &mut self.context, &mut reply) {
                Came::Part => {}
                came => return self.take(came, reply, room),
            }
            match self.inbox.fill(&mut self.stream) {
                // The other end sends no more, but may read what waits.
                Ok(0) => {
                    self.stage = Stage::Closing;
                    return Heard::HungUp;
                }
                Ok(_) => {}
                Err(error) => match error.kind() {
                    ErrorKind::WouldBlock => return Heard::Blocked,
                    ErrorKind::Interrupted => {}
                    _ => return Heard::Lost,
                },
            }
        }
        Heard::More
    }

    /// What a frame is to the port. A reply for which there is no room is the connection's loss.
    fn take(&mut self, came: Came, reply: Vec<u8>, room: usize) -> Heard
        ensures room { unsent self.new ≤ unsent self.old + room }
        ensures kept { KeepsRefusal self.old self.new }
    {
        match came {
            Came::Text(text) => Heard::Text(text),
            Came::Binary => {
                self.close(CloseCode::Unsupported, room);
                Heard::HungUp
            }
            Came::Refused(code) => {
                self.close(code, room);
                Heard::HungUp
            }
            Came::Close => {
                self.stage = Stage::Closing;
                let _ = self.queue(reply, room);
                Heard::HungUp
            }
            Came::Other | Came::Part => {
                self.has_reply = !reply.is_empty();
                match self.queue(reply, room) {
                    Ok(()) => Heard::More,
                    Err(_) => Heard::Lost,
                }
            }
            Came::Lost => Heard::Lost,
        }
    }

    /// Writes what waits, and then tells the other end that nothing more comes.
    fn send_rest(&mut self) -> Heard
        ensures fewer { unsent self.new ≤ unsent self.old }
        ensures kept { KeepsRefusal self.old self.new }
    {
        match self.write_some() {
            Written::Blocked => Heard::Blocked,
            Written::Part => Heard::More,
            Written::Failed => Heard::Done,
            Written::All => {
                if self.stream.shutdown(Shutdown::Write).is_err() {
                    return Heard::Done;
                }
                self.stage = Stage::Leaving(LAST_TURNS);
                Heard::More
            }
        }
    }

    /// Throws away what the other end still sends, until it closes too. If the connection were dropped while something is unread,
    /// the system would take back what was sent.
    fn leave(&mut self, turns: u32) -> Heard
        ensures { self.new ≡ self.old }
    {
        let Some(fewer) = turns.checked_sub(1) else {
            return Heard::Done;
        };
        let mut bytes = [0; LAST_READ_BYTES];
        for _ in 0..READS_A_TURN {
            match self.stream.read(&mut bytes) {
                Ok(0) => return Heard::Done,
                Ok(_) => {}
                Err(error) => match error.kind() {
                    ErrorKind::WouldBlock => return Heard::Blocked,
                    ErrorKind::Interrupted => {}
                    _ => return Heard::Done,
                },
            }
        }
        self.stage = Stage::Leaving(fewer);
        Heard::More
    }

    /// Writes what waits, until the system takes no more.
    #[tactic(auto, using(crate::proofs::Left::left_of_left))]
    fn write_some(&mut self) -> Written
        ensures left { IsLeft (to_send self.old) (to_send self.new) }
        ensures fewer { unsent self.new ≤ unsent self.old }
        ensures kept { KeepsRefusal self.old self.new }
    {
        for _ in 0..WRITES_A_TURN {
            match self.write_once() {
                Written::Part => {}
                written => return written,
            }
        }
        self.is_left = true;
        Written::Part
    }

    /// Writes once.
    fn write_once(&mut self) -> Written
        ensures left { IsLeft (to_send self.old) (to_send self.new) }
        ensures fewer { unsent self.new ≤ unsent self.old }
        ensures kept { KeepsRefusal self.old self.new }
    {
        self.is_left = false;
        let piece = self.outbox.piece();
        if piece.is_empty() {
            self.has_reply = false;
            return Written::All;
        }
        match self.stream.write(piece) {
            Ok(0) => Written::Failed,
            Ok(count) => {
                self.outbox.sent(count);
                Written::Part
            }
            Err(error) => match error.kind() {
                ErrorKind::WouldBlock => Written::Blocked,
                ErrorKind::Interrupted => Written::Part,
                _ => Written::Failed,
            },
        }
    }
}
