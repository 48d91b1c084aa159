ghost use Rattle.std.specs.Prelude.{◌≤◌, vec_len};
ghost use Rattle.log_format.specs.Form.{most_entries_of};

use crate::extent::Extent;
use crate::gate::Gate;
use log_format::Form;

mod calls;

/// A log of payloads in one file. It keeps the place of its last gate and the byte there, and where each payload stands.
#[derive(Debug, Drop)]
pub struct Log {
    form: Form,
    file: String,
    /// The file has at most nine bytes, and not those of a log without entries.
    short: bool,
    /// The last gate.
    gate: Gate,
    /// Where each payload stands, in order.
    index: Vec<Extent>,
    live: bool,
    ghost few: { vec_len index ≤ most_entries_of form },
}
