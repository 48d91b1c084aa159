//! Whether units are a text (Unicode Standard, section 3.9, UTF-16).
ghost use Rattle.std.specs.Prelude.{◌≡◌, ◌↔◌, ◌+◌, ◌<◌, ◌≤◌, true, length, drop, IsTrue, IfSome, IfNone};
ghost use Rattle.std.specs.Char.Utf16.{has_unpaired_surrogate};
ghost use Rattle.pad_text.specs.Text.{IsText};

use crate::pair::{is_first_of_pair, is_second_of_pair};

/// Whether each surrogate stands in a pair, a high one and then a low one.
pub(crate) fn is_text(units: &[u16]) -> bool
    ensures { IsTrue result ↔ IsText units.now }
{
    let mut at = 0;
    while at < units.len() {
        match size_at(units, at) {
            Some(size) => at += size,
            None => return false,
        }
    }
    true
}

/// The number of units of the character that begins at a place. There is none if half a pair stands there.
fn size_at(units: &[u16], at: usize) -> Option<usize>
    requires { at < length units.now }
    ensures inside { IfSome result (λ size. (0 < size) × (at + size ≤ length units.now)) }
    ensures rest { IfSome result (λ size. has_unpaired_surrogate (drop at units.now) ≡ has_unpaired_surrogate (drop (at + size) units.now)) }
    ensures half { IfNone result (has_unpaired_surrogate (drop at units.now) ≡ true) }
{
    let unit = units[at];
    if is_second_of_pair(unit) {
        return None;
    }
    if !is_first_of_pair(unit) {
        return Some(1);
    }
    if at + 1 == units.len() {
        return None;
    }
    if is_second_of_pair(units[at + 1]) {
        return Some(2);
    }
    None
}
