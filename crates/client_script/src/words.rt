//! The names of refusals.
ghost use Rattle.std.specs.Prelude.{◌≡◌, Some, None, IfSome, IfNone};
ghost use Rattle.client_script.specs.Words.{call_name, edit_name, sync_name};

use client_requests::ClientRefused;
use pad_client::{EditRefused, SyncRefused};

/// The name of a refused call; none for want of memory.
pub(crate) fn call_word(refused: ClientRefused) -> Option<&'static str>
    ensures some { IfSome result (λ word. call_name refused ≡ Some word.now) }
    ensures none { IfNone result (call_name refused ≡ None) }
{
    match refused {
        ClientRefused::Repairing => Some("Repairing"),
        ClientRefused::NotJoined => Some("NotJoined"),
        ClientRefused::Joined => Some("Joined"),
        ClientRefused::OtherChannel => Some("OtherChannel"),
        ClientRefused::NoKeeper => Some("NoKeeper"),
        ClientRefused::Asking => Some("Asking"),
        ClientRefused::NoMemory(_) => None,
    }
}

/// The name of a refused edit; none for want of memory.
pub(crate) fn edit_word(refused: EditRefused) -> Option<&'static str>
    ensures some { IfSome result (λ word. edit_name refused ≡ Some word.now) }
    ensures none { IfNone result (edit_name refused ≡ None) }
{
    match refused {
        EditRefused::Repairing => Some("Repairing"),
        EditRefused::Range => Some("Range"),
        EditRefused::Pair => Some("Pair"),
        EditRefused::TooLong => Some("TooLong"),
        EditRefused::NoMemory(_) => None,
    }
}

/// The name of a refused sync; none where it is full or for want of memory.
pub(crate) fn sync_word(refused: SyncRefused) -> Option<&'static str>
    ensures some { IfSome result (λ word. sync_name refused ≡ Some word.now) }
    ensures none { IfNone result (sync_name refused ≡ None) }
{
    match refused {
        SyncRefused::Repairing => Some("Repairing"),
        SyncRefused::NotJoined => Some("NotJoined"),
        SyncRefused::TooLong => Some("TooLong"),
        SyncRefused::OutboxFull => Some("OutboxFull"),
        SyncRefused::Full | SyncRefused::NoMemory(_) => None,
    }
}
