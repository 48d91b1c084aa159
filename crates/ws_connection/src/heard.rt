use pad_edge::Wire;

/// What came of a turn of a connection.
#[derive(Drop)]
pub enum Heard {
    /// A text came.
    Text(Wire),
    /// There may be more at once.
    More,
    /// There is no more until the system says that it is ready.
    Blocked,
    /// It was closed by the other end, or did what is not allowed, and is hung up.
    HungUp,
    /// It was lost.
    Lost,
    /// It was hung up before, and its end came.
    Done,
}

impl Heard {
    /// Whether there may be more at once.
    pub fn may_have_more(&self) -> bool {
        match self {
            Heard::Text(_) | Heard::More | Heard::HungUp => true,
            Heard::Blocked | Heard::Lost | Heard::Done => false,
        }
    }
}
