ghost use Rattle.std.specs.Prelude.{◌≡◌, Ok, None, IfOk};
ghost use Rattle.pad_received.specs.Contents.{ReadsAs};
ghost use Rattle.pad_received.specs.Progress.{IsRefusedAtOnce};

use pad_message::{Message, ReadRefused};
use std::alloc::{AllocError, Global};

/// What a line reads as: a message, or none. A line that is refused at once takes no memory.
pub(crate) fn read_line(alloc: Global, line: &[u8]) -> Result<Option<Message>, AllocError>
    ensures read { IfOk result (ReadsAs line.now) }
    ensures at_once { IsRefusedAtOnce line.now → result ≡ Ok None }
{
    let Ok(content) = str::from_utf8(line) else {
        return Ok(None);
    };
    match Message::read(alloc, content) {
        Ok(message) => Ok(Some(message)),
        Err(ReadRefused::Unreadable) => Ok(None),
        Err(ReadRefused::NoMemory(error)) => Err(error),
    }
}
