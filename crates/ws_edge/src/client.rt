//! The connection of a link, which counts nothing.
ghost use Rattle.std.specs.Prelude.{◌≡◌, Some};

use pad_edge::{LinkRefused, Wire};
use std::alloc::Global;
use std::io::ErrorKind;
use std::net::{Net, OpenStream, SocketAddr, TcpStream};
use std::random::RandomSource;
use std::time::Duration;
use tungstenite::handshake::client;
use tungstenite::{
    CloseCode, CloseFrame, Error, Message, RandomKeys, Utf8Bytes, WebSocket, WebSocketConfig,
};
use ws_connection::{MESSAGE_BYTES, refusal};

/// How many seconds a server may take to accept a connection, and for each piece of its handshake.
const HANDSHAKE_SECONDS: u64 = 10;

/// How many bytes one read asks for.
const READ_BYTES: usize = 4096;

/// A WebSocket to a server. Its reads and writes wait.
type Socket<R> = WebSocket<<R as Net>::Stream, RandomKeys<R>>;

/// How far the connection is.
#[derive(Drop)]
enum State<R: Net + RandomSource + Clone> {
    /// There is none, or a call on it failed.
    Broken,
    /// It is there.
    Open(Socket<R>),
    /// It ended.
    Ended,
}

/// A connection to a server, if there is one.
#[derive(Drop)]
pub(crate) struct Client<R: Net + RandomSource + Clone> {
    alloc: Global,
    rt: R,
    state: State<R>,
}

impl<R: Net + RandomSource + Clone> Client<R> {
    /// There is none yet.
    pub(crate) fn new(alloc: Global, rt: R) -> Client<R> {
        Client {
            alloc,
            rt,
            state: State::Broken,
        }
    }

    /// Connects to a server. A connection that was there before is dropped.
    pub(crate) fn dial(&mut self, address: SocketAddr) -> Result<(), LinkRefused> {
        self.state = State::Broken;
        match self.shake(address) {
            Ok(socket) => {
                self.state = State::Open(socket);
                Ok(())
            }
            Err(error) => Err(refused(&error)),
        }
    }

    /// Connects and does the handshake, for which the server has a limited time.
    fn shake(&self, address: SocketAddr) -> Result<Socket<R>, Error> {
        let wait = Duration::from_secs(HANDSHAKE_SECONDS);
        let stream = TcpStream::connect_timeout(&self.rt, &address, wait)?;
        stream.set_nodelay(true)?;
        stream.set_read_timeout(Some(wait))?;
        let mut nonce = [0; 16];
        self.rt.fill_bytes(&mut nonce)?;
        let uri = format!(in self.alloc; "ws://{}/", address)?;
        let request = client::request_of(self.alloc, uri.as_str())?;
        let keys = RandomKeys::new(self.rt.clone()?);
        let begun = client::start(self.alloc, nonce, keys, request, stream, Some(settings()))?;
        match begun.handshake() {
            Ok((socket, _)) => {
                socket.get_ref().set_read_timeout(None)?;
                Ok(socket)
            }
            Err(_) => Err(Error::HandshakeIncomplete),
        }
    }

    /// Waits for the next text, and answers none if the connection ended. If it cannot keep a text, it gives no later one.
    pub(crate) fn recv(&mut self) -> Result<Option<Wire>, LinkRefused> {
        match &mut self.state {
            State::Broken => Err(LinkRefused::Failed),
            State::Ended => Ok(None),
            State::Open(socket) => {
                let heard = hear(self.alloc, socket);
                match &heard {
                    Ok(Some(_)) => {}
                    Ok(None) => self.state = State::Ended,
                    Err(_) => self.state = State::Broken,
                }
                heard
            }
        }
    }

    /// Sends a text.
    pub(crate) fn send(&mut self, text: &str) -> Result<(), LinkRefused> {
        let State::Open(socket) = &mut self.state else {
            return Err(LinkRefused::Failed);
        };
        match socket.send(Message::text(self.alloc, text)?) {
            Ok(()) => Ok(()),
            Err(error) => Err(refused(&error)),
        }
    }
}

/// The settings of a link. What is written goes to the system at once.
fn settings() -> WebSocketConfig
    ensures messages { result.max_message_size ≡ Some MESSAGE_BYTES }
    ensures frames { result.max_frame_size ≡ Some MESSAGE_BYTES }
{
    WebSocketConfig::default()
        .read_buffer_size(READ_BYTES)
        .write_buffer_size(0)
        .max_message_size(Some(MESSAGE_BYTES))
        .max_frame_size(Some(MESSAGE_BYTES))
}

/// Reads messages until a text comes, and none if the other end closes, vanishes or does what is not allowed.
fn hear<R: Net + RandomSource + Clone>(
    alloc: Global,
    socket: &mut Socket<R>,
) -> Result<Option<Wire>, LinkRefused> {
    for _ in 0..u64::MAX {
        match socket.read() {
            Ok(Message::Text(text)) => {
                return Ok(Some(Wire::new(String::from_str(alloc, text.as_str())?)));
            }
            Ok(Message::Binary(_)) => return close(socket, CloseCode::Unsupported),
            Ok(_) => {}
            Err(Error::ConnectionClosed | Error::AlreadyClosed) => return Ok(None),
            Err(Error::Capacity(_)) => return close(socket, CloseCode::Size),
            Err(Error::Utf8) => return close(socket, CloseCode::Invalid),
            Err(Error::Protocol(_)) => return close(socket, CloseCode::Protocol),
            Err(Error::Io(error)) => {
                if error.kind() != ErrorKind::Interrupted {
                    return Err(refusal(error));
                }
            }
            Err(error) => return Err(refused(&error)),
        }
    }
    Err(LinkRefused::Failed)
}

/// Hangs up with this code.
fn close<R: Net + RandomSource + Clone>(
    socket: &mut Socket<R>,
    code: CloseCode,
) -> Result<Option<Wire>, LinkRefused> {
    let frame = CloseFrame {
        code,
        reason: Utf8Bytes::new(),
    };
    let _ = socket.close(Some(frame));
    Ok(None)
}

/// Why a call of the link did not do what it was asked for, if the WebSocket answered this.
fn refused(error: &Error) -> LinkRefused {
    match error {
        Error::OutOfMemory => LinkRefused::NoMemory,
        Error::Io(error) => refusal(*error),
        _ => LinkRefused::Failed,
    }
}
