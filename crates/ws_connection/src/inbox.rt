ghost use Rattle.std.specs.Prelude.{◌≡◌, [], drop};

use mio::net::TcpStream;
use pad_edge::Wire;
use std::alloc::Global;
use std::io::{self, Read};
use std::marker::Model;
use websocket::error::Error;
use websocket::protocol::{CloseCode, FrameStatus, Message, NoMask, WebSocketContext};

/// How many bytes one read asks for.
const READ_BYTES: usize = 16 << 10;

/// A buffer with more room than this is given back once all that it had was taken.
const KEPT_BYTES: usize = 16 << 10;

/// What the first frame of those that came is.
#[derive(Drop)]
pub(crate) enum Came {
    /// It is not whole.
    Part,
    /// It ends a text.
    Text(Wire),
    /// It ends a message that is no text.
    Binary,
    /// It closes the connection.
    Close,
    /// It is none of these, but allowed.
    Other,
    /// It is not allowed: the connection is to be closed with this code.
    Refused(CloseCode),
    /// There was no memory for it, or it came after the end.
    Lost,
}

/// The bytes that came and that no frame took yet. Contracts see the bytes.
#[derive(Drop)]
pub(crate) struct Inbox {
    bytes: Vec<u8>,
    // So many of them were taken.
    taken: usize,
}

impl Model for Inbox {
    ghost use Rattle.std.specs.Prelude.{ℕ, ◌≤◌, List, drop, vec_len};

    ghost Value = { List ℕ };

    ghost view = { λ inbox. drop inbox.taken inbox.bytes.items };

    ghost invariant = { λ inbox. inbox.taken ≤ vec_len inbox.bytes };
}

impl Inbox {
    /// Nothing came.
    pub(crate) fn new(alloc: Global) -> Inbox
        ensures { result ≡ [] }
    {
        Inbox {
            bytes: Vec::new(alloc),
            taken: 0,
        }
    }

    /// Reads once, and answers how many bytes came: 0 at the end.
    pub(crate) fn fill(&mut self, stream: &mut TcpStream) -> io::Result<usize> {
        self.bytes.drain(..self.taken);
        self.taken = 0;
        let mut piece = [0; READ_BYTES];
        let count = stream.read(&mut piece)?;
        self.bytes.extend_from_slice(&piece[..count])?;
        Ok(count)
    }

    /// Takes the first frame, if it is whole. The reply that it asks for is appended to `reply`: only a ping and a close ask for one.
    pub(crate) fn next(
        &mut self,
        alloc: Global,
        context: &mut WebSocketContext,
        reply: &mut Vec<u8>,
    ) -> Came {
        let status = match context.read(&mut self.bytes[self.taken..], reply, &mut NoMask) {
            Ok(status) => status,
            Err(error) => return came_of_error(&error),
        };
        let step = match status {
            FrameStatus::Partial(_) => return Came::Part,
            FrameStatus::Complete(step) => step,
        };
        let came = match &step.message {
            Some(received) => came_of(alloc, received.message(&self.bytes[self.taken..])),
            None => Came::Other,
        };
        self.take(alloc, step.consumed);
        came
    }

    /// The bytes that came and were not taken.
    pub(crate) fn bytes(&self) -> &[u8]
        ensures { result.now ≡ self.now }
    {
        &self.bytes[self.taken..]
    }

    /// So many of them are taken, and no more than there are. A large buffer of which all was taken is given back.
    pub(crate) fn take(&mut self, alloc: Global, count: usize)
        ensures { self.new ≡ drop count self.old }
    {
        if count < self.bytes.len() - self.taken {
            self.taken += count;
        } else {
            self.taken = 0;
            if self.bytes.capacity() > KEPT_BYTES {
                self.bytes = Vec::new(alloc);
            } else {
                self.bytes.clear();
            }
        }
    }
}

/// What a message is to the port.
fn came_of(alloc: Global, message: Message<'_>) -> Came {
    match message {
        Message::Text(text) => match String::from_str(alloc, text) {
            Ok(text) => Came::Text(Wire::new(text)),
            Err(_) => Came::Lost,
        },
        Message::Binary(_) => Came::Binary,
        Message::Ping(_) | Message::Pong(_) => Came::Other,
        Message::Close(_) => Came::Close,
    }
}

/// What a frame is that is not allowed (RFC 6455, section 7.4.1).
fn came_of_error(error: &Error) -> Came {
    match error {
        Error::Capacity(_) => Came::Refused(CloseCode::Size),
        Error::Utf8 => Came::Refused(CloseCode::Invalid),
        Error::Protocol(_) => Came::Refused(CloseCode::Protocol),
        Error::ConnectionClosed | Error::AlreadyClosed | Error::OutOfMemory => Came::Lost,
    }
}
