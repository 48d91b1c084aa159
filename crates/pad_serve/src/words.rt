/// What the words of a command `serve` say.
#[derive(Clone, Copy)]
pub struct ServeWords<'a> {
    /// Where to listen, as `IP:PORT`.
    pub address: &'a str,
    /// The folder of the channels' files.
    pub folder: &'a str,
    /// How many calls of `next` are made at most.
    pub turns: u64,
}
