ghost use Rattle.std.specs.Prelude.{OnOk, OnErr};
ghost use Rattle.std.specs.Io.KnownBytes.{Appends};
ghost use Rattle.pad_edge.specs.Count.{HasCause};
ghost use Rattle.pad_output.specs.Output.{AppendsPart};

use pad_edge::{Failed, Sink};

/// Writes all of a text. Where a write fails, a part from the front of the text is written.
pub fn write_all<O: Sink>(output: &mut O, text: &[u8]) -> Result<(), Failed>
    ensures whole { OnOk result (Appends (O.written output.old) (O.written output.new) text.now) }
    ensures part { OnErr result (AppendsPart (O.written output.old) (O.written output.new) text.now) }
    ensures cause { HasCause (O.faults output.old) (O.faults output.new) result }
{
    let mut done = 0;
    while done < text.len() {
        done += output.write(&text[done..])?;
    }
    Ok(())
}
