//! Texts on their way to a hasher, in UTF-8 (RFC 3629).
ghost use Rattle.std.specs.Prelude.{◌≡◌, ℕ, List, ◌≤◌, ◌++◌, length, take, IsTrue, OnOk, OnErr};
ghost use Rattle.std.specs.Str.{IsAscii};
ghost use Rattle.sha2.specs.Hashers.{Holds256};
ghost use Rattle.pad_text.specs.Text.{utf8};

use sha2::{Digest, Sha256};
use std::alloc::{AllocError, Global};

/// The most units that are narrowed at once.
const PIECE: usize = 512;

/// Adds units in UTF-8 to what a hasher holds. Units that are all ASCII take no memory. After want of memory the hasher holds
/// what it held.
pub fn feed_utf8(alloc: Global, units: &[u16], hasher: &mut Sha256) -> Result<(), AllocError>
    ensures fed { (message : List ℕ) → Holds256 hasher.old message
        → OnOk result (Holds256 hasher.new (message ++ utf8 units.now)) }
    ensures refused { OnErr result (hasher.new ≡ hasher.old) }
{
    if is_ascii(units) {
        feed_ascii(units, hasher);
        return Ok(());
    }
    let string = String::from_utf16_lossy(alloc, units)?;
    hasher.update(string.as_bytes());
    Ok(())
}

/// Whether each unit is ASCII.
fn is_ascii(units: &[u16]) -> bool
    ensures { IsTrue result → IsAscii units.now }
{
    // All units, so that several are compared at once.
    let mut most = 0;
    for unit in units {
        most = most.max(*unit);
    }
    most < 128
}

/// Adds ASCII units, each of which is its own UTF-8.
fn feed_ascii(units: &[u16], hasher: &mut Sha256)
    requires { IsAscii units.now }
    ensures { (message : List ℕ) → Holds256 hasher.old message → Holds256 hasher.new (message ++ units.now) }
{
    let mut fed = 0;
    while fed < units.len() {
        let next = units.len().min(fed + PIECE);
        feed_piece(&units[fed..next], hasher);
        fed = next;
    }
}

/// The same for a few units.
fn feed_piece(units: &[u16], hasher: &mut Sha256)
    requires fits { length units.now ≤ PIECE }
    requires ascii { IsAscii units.now }
    ensures { (message : List ℕ) → Holds256 hasher.old message → Holds256 hasher.new (message ++ units.now) }
{
    let room = narrow(units);
    hasher.update(&room[..units.len()]);
}

/// ASCII units as bytes, at the front of a room.
fn narrow(units: &[u16]) -> [u8; PIECE]
    requires fits { length units.now ≤ PIECE }
    requires ascii { IsAscii units.now }
    ensures { take (length units.now) result ≡ units.now }
{
    let mut room = [0; PIECE];
    for i in 0..units.len() {
        room[i] = units[i] as u8;
    }
    room
}
