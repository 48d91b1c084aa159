/// Where a payload stands in a log file.
#[derive(Clone, Copy, Debug)]
pub struct Extent {
    /// The place of its first byte, behind a gate and a length.
    pub place: u32,
    /// How many bytes it has.
    pub size: u32,
}
