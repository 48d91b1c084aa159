ghost use Rattle.ws_connection.specs.Begun.{BeginsNew};

use crate::answer::{Answer, answer_to};
use crate::connection::Connection;
use crate::inbox::Inbox;
use mio::net::TcpStream;
use std::alloc::Global;
use std::io::ErrorKind;

/// The most bytes of a request. Each time that some come, what is there is looked at from its front.
const REQUEST_BYTES: usize = 16 << 10;

/// A connection whose request is not whole. Bytes that come behind the request are the first of the WebSocket.
#[derive(Drop)]
pub struct Handshake {
    alloc: Global,
    stream: TcpStream,
    inbox: Inbox,
}

/// What came of a handshake, as far as bytes came.
#[derive(Drop)]
pub enum Shaken {
    /// The WebSocket is open. The response waits to go out, and bytes behind the request may wait to be read.
    Done(Connection),
    /// There may be more at once.
    More(Handshake),
    /// It goes on when the system says that it is ready.
    Blocked(Handshake),
    /// It failed, and the connection is closed.
    Failed,
}

impl Handshake {
    /// Nothing was read yet.
    pub fn new(alloc: Global, stream: TcpStream) -> Handshake {
        Handshake {
            alloc,
            stream,
            inbox: Inbox::new(alloc),
        }
    }

    /// Reads once, and answers the request if it is whole.
    #[tactic(auto, unfolding(crate::specs::Begun::BeginsNew))]
    pub fn go_on(mut self) -> Shaken
        ensures begins { BeginsNew result }
    {
        match self.inbox.fill(&mut self.stream) {
            Ok(0) => return Shaken::Failed,
            Ok(_) => {}
            Err(error) => {
                return match error.kind() {
                    ErrorKind::WouldBlock => Shaken::Blocked(self),
                    ErrorKind::Interrupted => Shaken::More(self),
                    _ => Shaken::Failed,
                };
            }
        }
        match answer_to(self.alloc, self.inbox.bytes()) {
            Answer::Part if self.inbox.bytes().len() <= REQUEST_BYTES => Shaken::More(self),
            Answer::Part | Answer::Refused => Shaken::Failed,
            Answer::Accepted(response, count) => self.open(response, count),
        }
    }

    /// The connection that was asked for by a request of so many bytes.
    #[tactic(auto, unfolding(crate::specs::Begun::BeginsNew))]
    fn open(self, response: Vec<u8>, count: usize) -> Shaken
        ensures begins { BeginsNew result }
    {
        let Handshake {
            alloc,
            stream,
            mut inbox,
        } = self;
        inbox.take(alloc, count);
        match Connection::new(alloc, stream, inbox, response) {
            Ok(connection) => Shaken::Done(connection),
            Err(_) => Shaken::Failed,
        }
    }
}
