ghost use Rattle.std.specs.Prelude.{◌≡◌, ◌<◌};
ghost use Rattle.pad_edge.specs.Count.{Rose};
ghost use Rattle.pad_top.specs.Inside.Ending.{IsEnd};

use crate::status::Status;
use pad_edge::{Failed, Sink};
use pad_output::write_all;

/// Writes a text, and ends with a status.
pub(crate) fn end<O: Sink>(output: &mut O, text: &[u8], status: Status) -> Status
    ensures told { O.faults output.old < O.faults output.new → result ≡ Status.WriteFault }
    ensures end { let write_failed = Rose (O.faults output.old) (O.faults output.new) in
        IsEnd (O.written output.old) (O.written output.new) write_failed text.now status result }
{
    match write_all(output, text) {
        Ok(()) => status,
        Err(Failed) => Status::WriteFault,
    }
}
