ghost use Rattle.std.specs.Prelude.{◌≡◌, ◌+◌, ◌≤◌, ◌<◌, IfOk, IfSome, OnOk, OnErr};
ghost use Rattle.pad_edge.specs.Count.{counted};
ghost use Rattle.ws_edge.specs.WsPort.{OpensFresh};

use mio::net::{TcpListener, TcpStream};
use mio::{Events, Interest, Poll, Token};
use pad_edge::{LinkRefused, PortEvent};
use std::alloc::Global;
use std::collections::{BTreeMap, VecDeque};
use std::io::{self, ErrorKind};
use std::marker::Model;
use std::net::{Net, SocketAddr};
use std::time::Duration;
use ws_connection::{Connection, Handshake, Heard, Shaken};
use ws_outbox::AllUnsent;

/// For how many milliseconds a call of `next` waits for an event.
const WAIT_MILLISECONDS: u64 = 200;

/// How many turns of connections without an event one call of `next` gives.
const MOST_TURNS: usize = 4096;

/// How many connections are accepted at a time, before all that are ready have their turns.
const MOST_ACCEPTS: usize = 64;

/// How many handshakes may be under way. Past that the oldest is given up.
const MOST_HANDSHAKES: usize = 1024;

/// How many connections that are hung up may still send what waits. Past that the one hung up first is given up.
const MOST_CLOSING: usize = 1024;

/// The most bytes of the head of a frame, beside its text.
const HEAD_BYTES: usize = 10;

/// How many events one wait of the system gives.
const EVENTS: usize = 1024;

/// The token of the listener. The numbers of connections are below it.
const LISTENER: Token = Token(usize::MAX);

/// A connection whose handshake is not done.
#[derive(Drop)]
struct Begun {
    handshake: Handshake,
    // Whether it is among those that are ready.
    is_queued: bool,
}

/// A connection whose handshake was done.
#[derive(Drop)]
struct Opened {
    connection: Connection,
    // Whether it is among those that are ready.
    is_queued: bool,
}

/// A listener and its connections, each with a number that no other one had. Contracts see from which number on none was given, and how
/// often `next` was called.
#[derive(Drop)]
pub(crate) struct Server {
    alloc: Global,
    poll: Poll,
    events: Events,
    listener: TcpListener,
    handshakes: BTreeMap<u64, Begun>,
    connections: BTreeMap<u64, Opened>,
    // The connections that were hung up and still are here, in order.
    closing: VecDeque<u64>,
    // The connections and handshakes that are ready, each once.
    ready: VecDeque<u64>,
    // How many of them have their turn before the system is asked again.
    turns_left: usize,
    next_number: u64,
    unsent: AllUnsent,
    // How often `next` was called.
    turn: u64,
    may_accept: bool,
    // The system had no place for one more connection. After the next wait it is tried again.
    is_stuck: bool,
}

impl Model for Server {
    ghost use Rattle.ws_edge.specs.Server.{ServerCounts};

    ghost Value = { ServerCounts };

    ghost view = { λ server. record { next_number = server.next_number; turn = server.turn } };
}

impl Server {
    /// Listens at an address.
    pub(crate) fn listen(alloc: Global, net: &impl Net, address: SocketAddr) -> io::Result<Server>
        ensures { IfOk result (λ server. server ≡ record { next_number = 0; turn = 0 }) }
    {
        let poll = Poll::new(net)?;
        let mut listener = TcpListener::bind(net, address)?;
        poll.registry()
            .register(&mut listener, LISTENER, Interest::READABLE)?;
        Ok(Server {
            alloc,
            poll,
            events: Events::with_capacity(alloc, EVENTS)?,
            listener,
            handshakes: BTreeMap::new(alloc),
            connections: BTreeMap::new(alloc),
            closing: VecDeque::with_capacity(alloc, MOST_CLOSING)?,
            ready: VecDeque::new(alloc),
            turns_left: 0,
            next_number: 0,
            unsent: AllUnsent::new(),
            turn: 0,
            may_accept: true,
            is_stuck: false,
        })
    }

    /// The next event. `Idle` comes after a wait in which nothing came, or after many turns without an event.
    #[tactic(auto, using(crate::proofs::Numbers::fresh_since))]
    pub(crate) fn next(&mut self) -> io::Result<PortEvent>
        ensures fresh { IfOk result (λ event. OpensFresh event self.old.next_number self.new.next_number) }
        ensures later { self.old.next_number ≤ self.new.next_number }
        ensures turn { self.new.turn ≡ counted self.old.turn }
    {
        self.turn = self.turn.saturating_add(1);
        for _ in 0..MOST_TURNS {
            if self.turns_left == 0 {
                if !self.wait()? {
                    return Ok(PortEvent::Idle);
                }
                self.accept_some();
            }
            self.turns_left = self.turns_left.saturating_sub(1);
            if let Some(event) = self.serve_one() {
                return Ok(event);
            }
        }
        Ok(PortEvent::Idle)
    }

    /// Asks the system which connections are ready, and waits if none is known to be. It answers whether there may be
    /// something to do.
    fn wait(&mut self) -> io::Result<bool>
        ensures { self.new ≡ self.old }
    {
        let is_idle = self.ready.is_empty() && !self.may_accept;
        let time = Duration::from_millis(if is_idle { WAIT_MILLISECONDS } else { 0 });
        self.poll.poll(&mut self.events, Some(time))?;
        for event in &self.events {
            if event.token() == LISTENER {
                self.may_accept = true;
                continue;
            }
            let number = event.token().0 as u64;
            if let Some(opened) = self.connections.get_mut(&number) {
                if !opened.is_queued {
                    self.ready.push_back(number)?;
                    opened.is_queued = true;
                }
            } else if let Some(begun) = self.handshakes.get_mut(&number) {
                if !begun.is_queued {
                    self.ready.push_back(number)?;
                    begun.is_queued = true;
                }
            }
        }
        if self.is_stuck {
            self.is_stuck = false;
            self.may_accept = true;
        }
        self.turns_left = self.ready.len();
        Ok(!is_idle || !self.events.is_empty())
    }

    /// Accepts connections that wait, some at a time.
    fn accept_some(&mut self)
        ensures later { self.old.next_number ≤ self.new.next_number }
        ensures turn { self.new.turn ≡ self.old.turn }
    {
        for _ in 0..MOST_ACCEPTS {
            if !self.may_accept {
                return;
            }
            match self.listener.accept() {
                // One that cannot be taken in is closed, and is no failure of the port.
                Ok((stream, _)) => {
                    let _ = self.take_in(stream);
                }
                Err(error) => match error.kind() {
                    ErrorKind::WouldBlock => self.may_accept = false,
                    ErrorKind::Interrupted | ErrorKind::ConnectionAborted => {}
                    _ => {
                        self.may_accept = self.give_up_one();
                        self.is_stuck = !self.may_accept;
                    }
                },
            }
        }
    }

    /// Begins the handshake of a connection.
    fn take_in(&mut self, mut stream: TcpStream) -> io::Result<()>
        ensures later { self.old.next_number ≤ self.new.next_number }
        ensures turn { self.new.turn ≡ self.old.turn }
    {
        if self.handshakes.len() >= MOST_HANDSHAKES {
            let _ = self.handshakes.pop_first();
        }
        stream.set_nodelay(true)?;
        let number = self.fresh_number()?;
        // A place among those that are ready, for each one.
        let here = self.handshakes.len().saturating_add(self.connections.len());
        self.ready.reserve(here.saturating_add(1))?;
        self.poll.registry().register(
            &mut stream,
            Token(number as usize),
            Interest::READABLE | Interest::WRITABLE,
        )?;
        self.ready.push_back(number)?;
        let begun = Begun {
            handshake: Handshake::new(self.alloc, stream),
            is_queued: true,
        };
        self.handshakes.insert(number, begun)?;
        Ok(())
    }

    /// A number that none had before.
    fn fresh_number(&mut self) -> io::Result<u64>
        ensures fresh { IfOk result (λ number. number ≡ self.old.next_number) }
        ensures rises { OnOk result (self.new ≡ record self.old { next_number = self.old.next_number + 1 }) }
        ensures same { OnErr result (self.new ≡ self.old) }
    {
        let number = self.next_number;
        match number.checked_add(1) {
            Some(next) => {
                self.next_number = next;
                Ok(number)
            }
            None => Err(ErrorKind::Other.into()),
        }
    }

    /// Gives up a connection that was hung up, or else the oldest handshake. It answers whether there was one.
    fn give_up_one(&mut self) -> bool
        ensures { self.new ≡ self.old }
    {
        self.give_up_closing() || self.handshakes.pop_first().is_some()
    }

    /// Gives up the connection that was hung up first, of those that still are here. It answers whether there was one.
    fn give_up_closing(&mut self) -> bool
        ensures { self.new ≡ self.old }
    {
        for _ in 0..MOST_CLOSING {
            match self.closing.pop_front() {
                Some(number) if self.drop_connection(number) => return true,
                Some(_) => {}
                None => return false,
            }
        }
        false
    }

    /// Drops a connection. It answers whether it was here.
    fn drop_connection(&mut self, number: u64) -> bool
        ensures { self.new ≡ self.old }
    {
        match self.connections.remove(&number) {
            Some(opened) => {
                // The proof learns here that no more wait than may.
                let _room = self.unsent.room();
                self.unsent.change(opened.connection.unsent(), 0);
                true
            }
            None => false,
        }
    }

    /// Gives the first of those that are ready its turn.
    fn serve_one(&mut self) -> Option<PortEvent>
        ensures fresh { IfSome result (λ event. OpensFresh event self.old.next_number self.new.next_number) }
        ensures later { self.old.next_number ≤ self.new.next_number }
        ensures turn { self.new.turn ≡ self.old.turn }
    {
        let number = self.ready.pop_front()?;
        match self.handshakes.remove(&number) {
            Some(begun) => self.shake(number, begun),
            None => self.serve_connection(number),
        }
    }

    /// Goes on with a handshake.
    fn shake(&mut self, number: u64, begun: Begun) -> Option<PortEvent>
        ensures fresh { IfSome result (λ event. OpensFresh event self.old.next_number self.new.next_number) }
        ensures later { self.old.next_number ≤ self.new.next_number }
        ensures turn { self.new.turn ≡ self.old.turn }
    {
        match begun.handshake.go_on() {
            Shaken::Done(connection) => match self.open(connection) {
                Ok(opened) => Some(PortEvent::Opened(opened)),
                Err(_) => None,
            },
            Shaken::More(handshake) => {
                let is_queued = self.ready.push_back(number).is_ok();
                self.keep(
                    number,
                    Begun {
                        handshake,
                        is_queued,
                    },
                );
                None
            }
            Shaken::Blocked(handshake) => {
                let begun = Begun {
                    handshake,
                    is_queued: false,
                };
                self.keep(number, begun);
                None
            }
            Shaken::Failed => None,
        }
    }

    /// Keeps a handshake. Without memory for that it is given up.
    fn keep(&mut self, number: u64, begun: Begun)
        ensures { self.new ≡ self.old }
    {
        let _ = self.handshakes.insert(number, begun);
    }

    /// Opens a connection whose handshake is done, under a number of its own.
    fn open(&mut self, mut connection: Connection) -> io::Result<u64>
        ensures fresh { IfOk result (λ number. (self.old.next_number ≤ number) × (number < self.new.next_number)) }
        ensures later { self.old.next_number ≤ self.new.next_number }
        ensures turn { self.new.turn ≡ self.old.turn }
    {
        let number = self.fresh_number()?;
        connection.watch(self.poll.registry(), Token(number as usize))?;
        let unsent = connection.unsent();
        if unsent > self.unsent.room() {
            return Err(ErrorKind::Other.into());
        }
        self.ready.push_back(number)?;
        let opened = Opened {
            connection,
            is_queued: true,
        };
        self.connections.insert(number, opened)?;
        self.unsent.change(0, unsent);
        Ok(number)
    }

    /// Gives a connection its turn.
    fn serve_connection(&mut self, number: u64) -> Option<PortEvent>
        ensures fresh { IfSome result (λ event. OpensFresh event self.old.next_number self.new.next_number) }
        ensures later { self.old.next_number ≤ self.new.next_number }
        ensures turn { self.new.turn ≡ self.old.turn }
    {
        match self.take_turn(number, true)? {
            Heard::Text(text) => Some(PortEvent::Text(number, text)),
            Heard::More | Heard::Blocked => None,
            Heard::HungUp => {
                self.note_closing(number);
                Some(PortEvent::Closed(number))
            }
            Heard::Lost => {
                self.drop_connection(number);
                Some(PortEvent::Closed(number))
            }
            Heard::Done => {
                self.forget_closing(number);
                self.drop_connection(number);
                None
            }
        }
    }

    /// What comes of a turn of a connection, which was just taken from those that are ready if `is_due`. If there may be more, it is
    /// among them again, the last of all.
    fn take_turn(&mut self, number: u64, is_due: bool) -> Option<Heard>
        ensures { self.new ≡ self.old }
    {
        let room = self.unsent.room();
        let opened = self.connections.get_mut(&number)?;
        let before = opened.connection.unsent();
        let heard = opened.connection.take_turn(self.turn, room);
        let after = opened.connection.unsent();
        if is_due {
            opened.is_queued = false;
        }
        if heard.may_have_more() && !opened.is_queued {
            opened.is_queued = self.ready.push_back(number).is_ok();
        }
        self.unsent.change(before, after);
        Some(heard)
    }

    /// Notes that a connection was hung up, the last of all.
    fn note_closing(&mut self, number: u64)
        ensures { self.new ≡ self.old }
    {
        if self.closing.len() >= MOST_CLOSING {
            self.give_up_closing();
        }
        let _ = self.closing.push_back(number);
    }

    /// Notes that a connection that was hung up is gone.
    fn forget_closing(&mut self, number: u64)
        ensures { self.new ≡ self.old }
    {
        for place in 0..self.closing.len() {
            let is_here = match self.closing.get(place) {
                Some(other) => *other == number,
                None => false,
            };
            if is_here {
                let _ = self.closing.remove(place);
                return;
            }
        }
    }

    /// Sends a text over a connection.
    pub(crate) fn send(&mut self, number: u64, text: &str) -> Result<(), LinkRefused>
        ensures { self.new ≡ self.old }
    {
        self.make_room(text.len().saturating_add(HEAD_BYTES));
        let room = self.unsent.room();
        let Some(opened) = self.connections.get_mut(&number) else {
            return Err(LinkRefused::Failed);
        };
        let before = opened.connection.unsent();
        let answer = opened.connection.send(self.turn, text, room);
        let after = opened.connection.unsent();
        if opened.connection.wants_turn() && !opened.is_queued {
            opened.is_queued = self.ready.push_back(number).is_ok();
        }
        self.unsent.change(before, after);
        answer
    }

    /// What was hung up gives way to what is open: connections that were hung up are given up until so many bytes more may wait.
    fn make_room(&mut self, bytes: usize)
        ensures { self.new ≡ self.old }
    {
        for _ in 0..MOST_CLOSING {
            if bytes <= self.unsent.room() || !self.give_up_closing() {
                return;
            }
        }
    }

    /// Hangs up a connection. What waits goes out, as long as the other end reads.
    pub(crate) fn hang_up(&mut self, number: u64)
        ensures { self.new ≡ self.old }
    {
        if !self.begin_hang_up(number) {
            return;
        }
        match self.take_turn(number, false) {
            Some(Heard::Done | Heard::Lost) => {
                self.drop_connection(number);
            }
            Some(_) => self.note_closing(number),
            None => {}
        }
    }

    /// Hangs up a connection, of which nothing goes out yet. It answers whether it was not hung up before.
    fn begin_hang_up(&mut self, number: u64) -> bool
        ensures { self.new ≡ self.old }
    {
        let room = self.unsent.room();
        let Some(opened) = self.connections.get_mut(&number) else {
            return false;
        };
        let before = opened.connection.unsent();
        let is_first = opened.connection.hang_up(room);
        let after = opened.connection.unsent();
        self.unsent.change(before, after);
        is_first
    }
}
