ghost use Rattle.std.specs.Prelude.{◌≡◌, OnOk, IfOk, [], ◌∷◌, ◌++◌};
ghost use Rattle.netflux_codec.specs.Reply.{HasSmallCounts, reply_text};
ghost use Rattle.netflux_rooms.specs.Rooms.{tell, tell_each, but, error};

use netflux_codec::{Channel, Reply, Word};
use pad_edge::Wire;
use serve_loop::Out;
use std::alloc::{AllocError, Global};

/// A reply to a connection, behind some outputs.
pub fn push_one(
    alloc: Global,
    outs: &mut Vec<Out>,
    number: u64,
    reply: &Reply,
) -> Result<(), AllocError>
    requires { HasSmallCounts reply.now }
    ensures { OnOk result (outs.new.items ≡ outs.old.items ++ tell number reply.now ∷ []) }
{
    outs.push(Out::Send(number, reply.text(alloc)?))?;
    Ok(())
}

/// The text of a reply, such that its copies share it.
fn shared_text(alloc: Global, reply: &Reply) -> Result<Wire, AllocError>
    requires { HasSmallCounts reply.now }
    ensures { IfOk result (λ wire. wire ≡ reply_text reply.now) }
{
    let text = reply.text(alloc)?;
    Wire::shared(String::from_str(alloc, text.as_str())?)
}

/// One reply to each of some connections. Its text is written once.
pub(crate) fn push_each(
    alloc: Global,
    outs: &mut Vec<Out>,
    numbers: &[u64],
    reply: &Reply,
) -> Result<(), AllocError>
    requires { HasSmallCounts reply.now }
    ensures { OnOk result (outs.new.items ≡ outs.old.items ++ tell_each numbers.now reply.now) }
{
    let text = shared_text(alloc, reply)?;
    for number in numbers {
        outs.push(Out::Send(*number, text.copy()?))?;
    }
    Ok(())
}

/// One reply to each of some connections but one. Its text is written once.
pub(crate) fn push_others(
    alloc: Global,
    outs: &mut Vec<Out>,
    numbers: &[u64],
    number: u64,
    reply: &Reply,
) -> Result<(), AllocError>
    requires { HasSmallCounts reply.now }
    ensures { OnOk result (outs.new.items ≡ outs.old.items ++ tell_each (but number numbers.now) reply.now) }
{
    let text = shared_text(alloc, reply)?;
    for other in numbers {
        if *other != number {
            outs.push(Out::Send(*other, text.copy()?))?;
        }
    }
    Ok(())
}

/// The digits of a channel as a text.
pub(crate) fn channel_text(alloc: Global, channel: &Channel) -> Result<Wire, AllocError>
    ensures { IfOk result (λ wire. wire ≡ channel.now) }
{
    Ok(Wire::new(String::from_str(alloc, channel.as_str())?))
}

/// An error to a connection, and nothing else.
pub fn refuse(
    alloc: Global,
    number: u64,
    seq: u32,
    word: Word,
    about: &str,
) -> Result<Vec<Out>, AllocError>
    ensures { IfOk result (λ outs. outs.items ≡ error number seq word about.now) }
{
    let mut outs = Vec::new(alloc);
    let about = Wire::new(String::from_str(alloc, about)?);
    push_one(alloc, &mut outs, number, &Reply::Error(seq, word, about))?;
    Ok(outs)
}
