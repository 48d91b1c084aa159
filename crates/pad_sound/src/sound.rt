ghost use Rattle.std.specs.Prelude.{◌≡◌, ◌<◌, ◌↔◌, length, IsTrue};
ghost use Rattle.std.specs.Bool.{OnTrue};
ghost use Rattle.pad_text.specs.Hash.{document_hash};
ghost use Rattle.pad_patch.specs.Misfit.{CanApply};
ghost use Rattle.pad_message.specs.Adopt.{IsWhole};
ghost use Rattle.pad_model.specs.Sound.{IsSound};

use pad_message::Message;
use pad_patch::UnitStore;
use pad_text::{Name, Text};

/// Whether the store has this text.
fn is_same<S: UnitStore>(store: &S, text: &Text) -> bool
    ensures { IsTrue result ↔ (text.now ≡ S.units store.now) }
{
    if text.len() != store.length() {
        return false;
    }
    for at in 0..text.len() {
        if text.unit(at) != store.unit(at) {
            return false;
        }
    }
    true
}

/// Whether the message puts the whole text in the text's own place, and does no more.
fn is_whole<S: UnitStore>(message: &Message, text: &S) -> bool
    ensures { IsTrue result ↔ IsWhole message.now (S.units text.now) }
{
    let ops = message.patch.ops.as_slice();
    if ops.len() != 1 {
        return false;
    }
    let whole = &ops[0];
    whole.offset == 0 && whole.remove as usize == text.length() && is_same(text, &whole.insert)
}

/// Whether a message is sound on a text, where `distance` is its height above the last checkpoint before it, or above the
/// base, and `interval` is the interval in force there. `hash` is the text's document hash. It takes no memory.
pub fn is_sound<S: UnitStore>(
    message: &Message,
    distance: u64,
    interval: u16,
    text: &S,
    hash: &Name,
) -> bool
    requires above { 0 < distance }
    requires hash { hash.now ≡ document_hash (S.units text.now) }
    ensures sound { IsTrue result ↔ IsSound message.now distance interval (S.units text.now) }
    ensures applies { OnTrue result (CanApply message.now.patch (S.units text.now)) }
{
    if message.kind.is_checkpoint() {
        if distance.checked_rem(u64::from(interval)) != Some(0) {
            return false;
        }
        if !is_whole(message, text) {
            return false;
        }
    }
    message.patch.fits(text, hash).is_ok()
}
