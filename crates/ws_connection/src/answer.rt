//! The answer to the request with which a client opens a WebSocket (RFC 6455, section 4.2).

use httparse::Status;
use httparse::spans::{EMPTY_HEADER_SPAN, parse_request};
use std::alloc::Global;
use websocket::handshake::server::{check_request, write_response};

/// The most header fields of a request.
const MOST_FIELDS: usize = 124;

/// What is answered to the bytes that came first over a connection.
#[derive(Drop)]
pub(crate) enum Answer {
    /// The request is not whole.
    Part,
    /// The WebSocket is open: the response, and how many bytes the request took.
    Accepted(Vec<u8>, usize),
    /// It is no such request, or there is no memory for the response.
    Refused,
}

/// What is answered to these bytes.
pub(crate) fn answer_to(alloc: Global, bytes: &[u8]) -> Answer {
    let mut spans = [EMPTY_HEADER_SPAN; MOST_FIELDS];
    let found = match parse_request(bytes, &mut spans) {
        Ok(Status::Complete(found)) => found,
        Ok(Status::Partial) => return Answer::Part,
        Err(_) => return Answer::Refused,
    };
    let Ok(key) = check_request(bytes, &found, &spans) else {
        return Answer::Refused;
    };
    let mut response = Vec::new(alloc);
    match write_response(&key, &[], &mut response) {
        Ok(()) => Answer::Accepted(response, found.len),
        Err(_) => Answer::Refused,
    }
}
