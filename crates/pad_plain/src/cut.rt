//! The cut of a path, and how the kept root moves up to it.

ghost use Rattle.std.specs.Prelude.{◌≡◌, ◌<◌, ◌≤◌, List, length, drop, map, All};
ghost use Rattle.pad_message.specs.declared.message.Message.{Message};
ghost use Rattle.pad_message.specs.Message.{name_of};
ghost use Rattle.pad_model.specs.Choice.{to_checkpoint, cut, higher};
ghost use Rattle.pad_plain.specs.Inside.Walk.{messages_at};
ghost use Rattle.pad_plain.specs.Tip.{IsTipOf};

use crate::path::Tip;
use pad_message::Message;
use pad_model::Base;
use pad_text::Name;

/// How many places come before the next checkpoint of a path, from number `after` on. All places if there is none.
fn before_checkpoint(received: &[Message], places: &[usize], after: usize) -> usize
    requires { All (λ place. place < length received.now) places.now }
    ensures within { result ≤ length places.now }
    ensures checkpoint { to_checkpoint (messages_at received.now (drop after places.now)) ≡ messages_at received.now (drop result places.now) }
{
    for at in after..places.len() {
        if received[places[at]].kind.is_checkpoint() {
            return at;
        }
    }
    places.len()
}

/// The end of the cut of the path at these places.
fn cut_of(base: &Base, received: &[Message], names: &[Name], places: &[usize]) -> Tip
    requires named { names.now ≡ map name_of received.now }
    requires within { All (λ place. place < length received.now) places.now }
    ensures { IsTipOf base.now (cut (messages_at received.now places.now)) result }
{
    let last = before_checkpoint(received, places, 0);
    let at = before_checkpoint(received, places, last + 1);
    if at == places.len() {
        return Tip {
            name: base.name,
            height: 0,
        };
    }
    Tip {
        name: names[places[at]],
        height: places.len() - at,
    }
}

/// The kept root after the path at these places was chosen: the cut of the path, if that is higher than the root was.
pub(crate) fn root_after(
    base: &Base,
    received: &[Message],
    names: &[Name],
    places: &[usize],
    root: Tip,
) -> Tip
    requires named { names.now ≡ map name_of received.now }
    requires within { All (λ place. place < length received.now) places.now }
    ensures { (path : List Message) → IsTipOf base.now path root → IsTipOf base.now (higher path (cut (messages_at received.now places.now))) result }
{
    let cut = cut_of(base, received, names, places);
    if cut.height > root.height {
        return cut;
    }
    root
}
