ghost use Rattle.std.specs.Prelude.{◌≡◌, ◌<◌, ◌≤◌, ℕ, List, Option, length, take, IfOk, OnErr};
ghost use Rattle.std.specs.Io.KnownBytes.{WriteAppends, Appends, Keeps};
ghost use Rattle.pad_edge.specs.Count.{HasCause};

use pad_edge::{Failed, Sink};
use std::io::{self, ErrorKind, Write};

/// A sink over a writer of std. It counts the writes that failed, and knows of the bytes written what the writer does. A
/// write that takes no byte of a piece that has some failed too; one that a signal interrupted is made again.
#[derive(Drop)]
pub struct WriterSink<W: Write + Drop> {
    writer: W,
    faults: u64,
}

impl<W: Write + Drop> WriterSink<W> {
    /// A sink over this writer.
    pub fn new(writer: W) -> WriterSink<W>
        ensures { result ≡ record { writer = writer; faults = 0 } }
    {
        WriterSink { writer, faults: 0 }
    }
}

impl<W: Write + Drop> Sink for WriterSink<W> {
    ghost faults = { λ sink. sink.faults };

    ghost written = { λ sink. W.contents sink.writer };

    fn write(&mut self, piece: &[u8]) -> Result<usize, Failed> {
        match write_retrying(&mut self.writer, piece) {
            Ok(count) if count > 0 || piece.is_empty() => Ok(count),
            _ => {
                self.faults = self.faults.saturating_add(1);
                Err(Failed)
            }
        }
    }
}

/// One write, made again as long as a signal interrupts it.
fn write_retrying<W: Write>(writer: &mut W, piece: &[u8]) -> io::Result<usize>
    ensures bound { IfOk result (λ count. count ≤ length piece.now) }
    ensures grown { IfOk result (λ count. Appends (W.contents writer.old) (W.contents writer.new) (take count piece.now)) }
    ensures failed { OnErr result (Keeps (W.contents writer.old) (W.contents writer.new)) }
{
    for _ in 0..u64::MAX {
        match writer.write(piece) {
            Err(error) if error.kind() == ErrorKind::Interrupted => {}
            answer => return answer,
        }
    }
    Err(ErrorKind::TimedOut.into())
}
