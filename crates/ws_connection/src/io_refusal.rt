use pad_edge::LinkRefused;
use std::io::{self, ErrorKind};

/// Why a call of a link or a port did not do what it was asked for, if the system answered this.
pub fn refusal(error: io::Error) -> LinkRefused {
    match error.kind() {
        ErrorKind::OutOfMemory => LinkRefused::NoMemory,
        _ => LinkRefused::Failed,
    }
}
