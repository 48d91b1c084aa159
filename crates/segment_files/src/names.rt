ghost use Rattle.std.specs.Prelude.{◌≡◌, string_bytes, IfOk};
ghost use Rattle.segment_files.specs.Names.{segment_name};

use std::alloc::{AllocError, Global};

/// The name of the file of a segment of the log of this name.
pub fn segment_file(alloc: Global, name: &str, segment: u64) -> Result<String, AllocError>
    ensures { IfOk result (λ file. string_bytes file ≡ segment_name name.now segment) }
{
    if segment == 0 {
        return String::from_str(alloc, name);
    }
    format!(in alloc; "{}.{}", name, segment)
}
