use std::alloc::Global;

/// What was last read of a file, from an offset on. It is to be forgotten once the file may have something else there.
#[derive(Drop)]
pub(crate) struct Ahead {
    at: u64,
    bytes: Vec<u8>,
}

impl Ahead {
    /// Nothing yet.
    pub(crate) fn new(alloc: Global) -> Ahead {
        Ahead {
            at: 0,
            bytes: Vec::new(alloc),
        }
    }

    /// Forgets it, and keeps the memory.
    pub(crate) fn forget(&mut self) {
        self.bytes.clear();
    }

    /// Makes a buffer of so many bytes for what the file has from an offset on. It answers none without memory for that.
    pub(crate) fn buffer(&mut self, at: u64, count: usize) -> Option<&mut [u8]> {
        self.bytes.clear();
        if self.bytes.resize(count, 0).is_err() {
            return None;
        }
        self.at = at;
        Some(self.bytes.as_mut_slice())
    }

    /// So many bytes of the buffer came.
    pub(crate) fn came(&mut self, count: usize) {
        self.bytes.truncate(count);
    }

    /// The bytes from an offset on, as many as are asked for, and fewer if fewer are known.
    pub(crate) fn bytes_from(&self, at: u64, count: usize) -> &[u8] {
        let from = match at.checked_sub(self.at) {
            Some(from) => usize::try_from(from).unwrap_or(usize::MAX),
            None => usize::MAX,
        };
        match self.bytes.get(from..) {
            Some(known) => match known.get(..count) {
                Some(asked) => asked,
                None => known,
            },
            None => &[],
        }
    }
}
