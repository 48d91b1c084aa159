//! The words of refusals.

ghost use Rattle.std.specs.Prelude.{◌≡◌, ◌++◌, IfOk, MatchOption, string_bytes};
ghost use Rattle.pad_seat.specs.Calls.{IsCause, IsToldEdit, IsToldSync};
ghost use Rattle.pad_seat.specs.Lines.{refused_line, call_word, edit_word, sync_word};

use client_requests::ClientRefused;
use pad_client::{EditRefused, SyncRefused};
use pad_edge::Wire;
use std::alloc::{AllocError, Global};

/// The line of a refused command.
pub fn refused_line(alloc: Global, line: u64, word: &str) -> Result<Wire, AllocError>
    ensures { IfOk result (λ told. told ≡ refused_line line word.now) }
{
    Ok(Wire::new(format!(in alloc; "refused {line} {word}\n")?))
}

/// The word of a refused request. Want of memory has none.
pub(crate) fn call_word(refused: ClientRefused) -> Option<&'static str>
    ensures { MatchOption result (IsCause refused → ⊥) (λ word. IsCause refused × (word.now ≡ call_word refused)) }
{
    match refused {
        ClientRefused::Repairing => Some("Repairing"),
        ClientRefused::NotJoined => Some("NotJoined"),
        ClientRefused::Joined => Some("Joined"),
        ClientRefused::OtherChannel => Some("OtherChannel"),
        ClientRefused::NoKeeper => Some("NoKeeper"),
        ClientRefused::Asking => Some("Asking"),
        ClientRefused::NoMemory(_) => None,
    }
}

/// The word of a refused edit. Want of memory has none.
pub(crate) fn edit_word(refused: EditRefused) -> Option<&'static str>
    ensures { MatchOption result (IsToldEdit refused → ⊥) (λ word. IsToldEdit refused × (word.now ≡ edit_word refused)) }
{
    match refused {
        EditRefused::Repairing => Some("Repairing"),
        EditRefused::Range => Some("Range"),
        EditRefused::Pair => Some("Pair"),
        EditRefused::TooLong => Some("TooLong"),
        EditRefused::NoMemory(_) => None,
    }
}

/// The word of a refused sync. `Full` and want of memory have none.
pub(crate) fn sync_word(refused: SyncRefused) -> Option<&'static str>
    ensures { MatchOption result (IsToldSync refused → ⊥) (λ word. IsToldSync refused × (word.now ≡ sync_word refused)) }
{
    match refused {
        SyncRefused::Repairing => Some("Repairing"),
        SyncRefused::NotJoined => Some("NotJoined"),
        SyncRefused::TooLong => Some("TooLong"),
        SyncRefused::OutboxFull => Some("OutboxFull"),
        SyncRefused::Full => None,
        SyncRefused::NoMemory(_) => None,
    }
}
