//! Whether each message of a path is sound, and the text after it.

ghost use Rattle.std.specs.Prelude.{◌≡◌, ◌<◌, length, IfOk, IfSome, IsNone, All};
ghost use Rattle.pad_model.specs.Path.{EachSound, text};
ghost use Rattle.pad_plain.specs.Inside.Walk.{messages_at};

use crate::interval::interval_after;
use pad_message::Message;
use pad_model::Base;
use pad_patch::{UnitStore, VecUnits};
use pad_sound::is_sound;
use pad_text::Text;
use std::alloc::{AllocError, Global};

/// The text after the path at these places, the newest first. None if a message of it is not sound.
pub(crate) fn evaluate<S: UnitStore>(
    alloc: Global,
    base: &Base,
    received: &[Message],
    places: &[usize],
) -> Result<Option<S>, AllocError>
    requires { All (λ place. place < length received.now) places.now }
    ensures some { IfOk result (λ found. IfSome found (λ store. EachSound base.now (messages_at received.now places.now) × (S.units store ≡ text base.now (messages_at received.now places.now)))) }
    ensures none { IfOk result (λ found. IsNone found → ¬ (EachSound base.now (messages_at received.now places.now))) }
{
    let mut store = S::from_text(alloc, &base.text)?;
    let mut since: u64 = 0;
    let mut interval = base.interval;
    for height in 0..places.len() {
        let message = &received[places[places.len() - 1 - height]];
        let hash = store.hash(alloc)?;
        if !is_sound(message, since + 1, interval, &store, &hash) {
            return Ok(None);
        }
        store = message.patch.apply(alloc, &store)?;
        since = if message.kind.is_checkpoint() {
            0
        } else {
            since + 1
        };
        interval = interval_after(message, interval);
    }
    Ok(Some(store))
}

/// The text after the path at these places, if each message of it is sound.
pub(crate) fn text_at(
    alloc: Global,
    base: &Base,
    received: &[Message],
    places: &[usize],
) -> Result<Text, AllocError>
    requires { All (λ place. place < length received.now) places.now }
    ensures { IfOk result (λ after. EachSound base.now (messages_at received.now places.now) → after ≡ text base.now (messages_at received.now places.now)) }
{
    match evaluate::<VecUnits>(alloc, base, received, places)? {
        Some(store) => store.read(alloc, 0, store.length()),
        None => base.text.copy(alloc),
    }
}
