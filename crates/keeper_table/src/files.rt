ghost use Rattle.std.specs.Prelude.{◌≡◌, string_bytes, IfOk};
ghost use Rattle.keeper_table.specs.Files.{file_one, file_two};

use netflux_codec::Channel;
use std::alloc::{AllocError, Global};

/// The name of a channel's log of form One.
pub fn old_file_of(alloc: Global, channel: &Channel) -> Result<String, AllocError>
    ensures { IfOk result (λ name. string_bytes name ≡ file_one channel.now) }
{
    format!(in alloc; "{}.padlog", channel.as_str())
}

/// The name of a channel's log of form Two.
pub fn file_of(alloc: Global, channel: &Channel) -> Result<String, AllocError>
    ensures { IfOk result (λ name. string_bytes name ≡ file_two channel.now) }
{
    format!(in alloc; "{}.padlog2", channel.as_str())
}

/// The names of a channel's logs.
#[derive(Drop)]
pub struct FileNames {
    /// Of form One.
    pub one: String,
    /// Of form Two.
    pub two: String,
}

/// The names of a channel's logs.
pub fn files_of(alloc: Global, channel: &Channel) -> Result<FileNames, AllocError>
    ensures one { IfOk result (λ files. string_bytes files.one ≡ file_one channel.now) }
    ensures two { IfOk result (λ files. string_bytes files.two ≡ file_two channel.now) }
{
    let one = old_file_of(alloc, channel)?;
    let two = file_of(alloc, channel)?;
    Ok(FileNames { one, two })
}
