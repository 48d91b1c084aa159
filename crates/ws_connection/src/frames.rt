//! Frames that a connection sends (RFC 6455, section 5).
ghost use Rattle.std.specs.Prelude.{◌≡◌, IfOk, IfErr};
ghost use Rattle.pad_edge.specs.declared.link_refused.LinkRefused.TheVariants as refused;
ghost use Rattle.ws_connection.specs.Sending.{text_frame};

use crate::settings::settings;
use pad_edge::LinkRefused;
use std::alloc::Global;
use websocket::error::Error;
use websocket::protocol::{CloseCode, CloseFrame, Message, NoMask, Role, WebSocketContext};

/// The most bytes of the head of a frame that is not masked (RFC 6455, section 5.2).
const HEAD_BYTES: usize = 10;

/// A text as one frame. Only memory can be wanting.
#[tactic(auto, using(crate::proofs::Masks::not_masked))]
pub(crate) fn text_frame(alloc: Global, text: &str) -> Result<Vec<u8>, LinkRefused>
    ensures ok { IfOk result (λ frame. frame.items ≡ text_frame text.now) }
    ensures err { IfErr result (λ error. error ≡ refused.NoMemory) }
{
    let mut frame = Vec::with_capacity(alloc, text.len().saturating_add(HEAD_BYTES))?;
    let mut context = WebSocketContext::new(alloc, Role::Server, settings());
    match context.write(Message::Text(text), &mut frame, &mut NoMask) {
        Ok(()) => Ok(frame),
        Err(_) => Err(LinkRefused::NoMemory),
    }
}

/// A close with this code as one frame, if there is memory for it.
pub(crate) fn close_frame(alloc: Global, code: CloseCode) -> Option<Vec<u8>> {
    let mut frame = Vec::new(alloc);
    let mut context = WebSocketContext::new(alloc, Role::Server, settings());
    let close = CloseFrame { code, reason: "" };
    match context.close(Some(close), &mut frame, &mut NoMask) {
        Ok(()) => Some(frame),
        Err(_) => None,
    }
}
