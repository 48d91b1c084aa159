use pad_edge::{Wire, Wires};

/// What a command gives: texts that are to be sent, in order, and lines that are to be written after that.
#[derive(Debug, Drop)]
pub struct Said {
    /// The texts to be sent.
    pub texts: Wires,
    /// The lines to be written, each with its newline.
    pub lines: Wire,
}
