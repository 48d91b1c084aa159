//! The texts that a client sends.

ghost use Rattle.std.specs.Prelude.{◌≡◌, ◌≤◌, [], length, IfOk};
ghost use Rattle.netflux_codec.specs.declared.body.Body.TheVariants.{Join, Leave, Msg};
ghost use Rattle.netflux_codec.specs.declared.ask.Ask.TheVariants.{History};
ghost use Rattle.netflux_codec.specs.Request.{request_text};
ghost use Rattle.netflux_codec.specs.Ask.{ask_text};
ghost use Rattle.pad_message.specs.Content.{most_operations};
ghost use Rattle.pad_message.specs.Kind.{HasInterval};
ghost use Rattle.client_outbox.specs.Outbox.{content_of, message_request};

use netflux_codec::{Ask, Body, Channel, KeeperId, Request, Since};
use pad_edge::Wire;
use pad_message::Message;
use std::alloc::{AllocError, Global};

/// A copy of a text.
fn wire_of(alloc: Global, text: &str) -> Result<Wire, AllocError>
    ensures { IfOk result (λ wire. wire ≡ text.now) }
{
    Ok(Wire::new(String::from_str(alloc, text)?))
}

/// The request to join a channel.
pub fn join_text(alloc: Global, seq: u32, channel: Channel) -> Result<Wire, AllocError>
    ensures { IfOk result (λ wire. wire ≡ request_text (record { seq = seq; body = Join channel })) }
{
    let request = Request {
        seq,
        body: Body::Join(channel),
    };
    request.text(alloc)
}

/// The request to leave a channel, without a reason.
pub fn leave_text(alloc: Global, seq: u32, channel: Channel) -> Result<Wire, AllocError>
    ensures { IfOk result (λ wire. wire ≡ request_text (record { seq = seq; body = Leave channel [] })) }
{
    let reason = Wire::new(String::new(alloc));
    let request = Request {
        seq,
        body: Body::Leave(channel, reason),
    };
    request.text(alloc)
}

/// The request that asks a channel's keeper for its history.
pub fn history_text(
    alloc: Global,
    seq: u32,
    keeper: &KeeperId,
    channel: Channel,
    from: Since,
) -> Result<Wire, AllocError>
    ensures { IfOk result (λ wire. wire ≡ request_text (record { seq = seq; body = Msg keeper.now (ask_text (History channel from)) })) }
{
    let ask = Ask::History(channel, from);
    let content = ask.text(alloc)?;
    let target = wire_of(alloc, keeper.as_str())?;
    let request = Request {
        seq,
        body: Body::Msg(target, content),
    };
    request.text(alloc)
}

/// The content as which a client sends a message: `cp|` stands before a checkpoint.
fn content(alloc: Global, message: &Message) -> Result<Wire, AllocError>
    requires few { length message.now.patch.ops ≤ most_operations }
    requires interval { HasInterval message.now.kind }
    ensures { IfOk result (λ wire. wire ≡ content_of message.now) }
{
    let text = message.text(alloc)?;
    if !message.kind.is_checkpoint() {
        return Ok(text);
    }
    let mut marked = String::from_str(alloc, "cp|")?;
    marked.push_str(text.as_str())?;
    Ok(Wire::new(marked))
}

/// The request that sends a message to a channel.
pub fn message_text(
    alloc: Global,
    seq: u32,
    channel: &Channel,
    message: &Message,
) -> Result<Wire, AllocError>
    requires few { length message.now.patch.ops ≤ most_operations }
    requires interval { HasInterval message.now.kind }
    ensures { IfOk result (λ wire. wire ≡ message_request channel.now seq message.now) }
{
    let content = content(alloc, message)?;
    let target = wire_of(alloc, channel.as_str())?;
    let request = Request {
        seq,
        body: Body::Msg(target, content),
    };
    request.text(alloc)
}
