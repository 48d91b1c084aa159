ghost use Rattle.std.specs.Prelude.{List, ℕ};
ghost use Rattle.disk_volume.specs.Disk.{AtRest};
ghost use Rattle.disk_volume.specs.Memory.{disk_of};

use disk_volume::MemVolume;
use pad_edge::{MemClock, MemLink, MemPort, MemSink, MemSource};
use pad_top::{Status, run};
use std::alloc::{AllocError, Global};

/// So many spaces.
pub fn spaces(alloc: Global, count: usize) -> Result<Vec<u8>, AllocError> {
    vec![in alloc; b' '; count]
}

/// These words.
pub fn words_of(alloc: Global, line: &str) -> Result<Vec<String>, AllocError> {
    let mut words = Vec::new(alloc);
    for word in line.split_whitespace() {
        words.push(String::from_str(alloc, word)?)?;
    }
    Ok(words)
}

/// How the words end over these, with a port and a link that give nothing.
pub fn run_alone(
    alloc: Global,
    words: &[String],
    source: &mut MemSource,
    sink: &mut MemSink,
    volume: &mut MemVolume,
) -> Status
    requires { (file : List ℕ) → AtRest (disk_of volume.old) file }
{
    let mut port = MemPort::new(Vec::new(alloc), Vec::new(alloc));
    let mut link = MemLink::new(Vec::new(alloc), Vec::new(alloc));
    let mut clock = MemClock::new(Vec::new(alloc));
    run(
        alloc, words, source, sink, volume, &mut port, &mut link, &mut clock, [0; 32],
    )
}
