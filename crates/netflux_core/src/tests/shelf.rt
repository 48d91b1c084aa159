//! A keeper in memory, over a volume that tells nothing.
ghost use Rattle.std.specs.Prelude.{◌≤◌, []};
ghost use Rattle.disk_volume.specs.Disk.{began};

use crate::keep::Keep;
use disk_volume::Volume;
use keeper_channel::KeeperRefused;
use keeper_table::{Entry, Span};
use log_format::Damage;
use netflux_codec::{Ask, Channel, Id, Since};
use pad_edge::{Failed, Wire};
use std::alloc::{AllocError, Global};

/// A volume without files. The call of one number fails, counted from 1.
#[derive(Debug, Drop)]
pub(super) struct Blank {
    calls: u64,
    failing: u64,
    faults: u64,
}

impl Blank {
    pub(super) fn new(failing: u64) -> Blank {
        Blank {
            calls: 0,
            failing,
            faults: 0,
        }
    }
}

impl Volume for Blank {
    ghost tells = { ⊥ };

    ghost disk = { λ _. began (λ _. []) };

    ghost clock = { λ volume. volume.calls };

    ghost faults = { λ volume. volume.faults };

    ghost follows = { λ _ _. Unit {0} };

    ghost follows_itself = { λ _. tt };

    ghost follows_on = { λ _ _ _ _ _. tt };

    ghost as_it_reads = { λ _ told. absurd told };

    fn root(&mut self, _folder: &str) -> Result<(), Failed> {
        self.calls = self.calls.saturating_add(1);
        Ok(())
    }

    fn length(&mut self, _file: &str) -> Result<u64, Failed> {
        self.calls = self.calls.saturating_add(1);
        Ok(0)
    }

    fn read_at(&mut self, _file: &str, _at: u64, _buf: &mut [u8]) -> Result<usize, Failed> {
        self.calls = self.calls.saturating_add(1);
        Ok(0)
    }

    fn write_at(&mut self, _file: &str, _at: u64, _piece: &[u8]) -> Result<(), Failed> {
        self.calls = self.calls.saturating_add(1);
        Ok(())
    }

    fn cut(&mut self, _file: &str, _to: u64) -> Result<(), Failed> {
        self.calls = self.calls.saturating_add(1);
        Ok(())
    }

    fn sync(&mut self, _file: &str) -> Result<(), Failed> {
        self.calls = self.calls.saturating_add(1);
        if self.calls == self.failing {
            self.faults = self.faults.saturating_add(1);
            return Err(Failed);
        }
        Ok(())
    }
}

#[derive(Debug, Drop)]
struct Stored {
    channel: Channel,
    moment: u64,
    sender: Id,
    content: Wire,
}

/// Entries in the order in which they were stored. Each store syncs a file of the volume, and fails if that does.
#[derive(Debug, Drop)]
pub(super) struct Shelf {
    stored: Vec<Stored>,
}

impl Shelf {
    pub(super) fn new(alloc: Global) -> Shelf {
        Shelf {
            stored: Vec::new(alloc),
        }
    }

    fn push(
        &mut self,
        alloc: Global,
        channel: &Channel,
        moment: u64,
        sender: &Id,
        content: &Wire,
    ) -> Result<(), AllocError> {
        let content = String::from_str(alloc, content.as_str())?;
        let stored = Stored {
            channel: *channel,
            moment,
            sender: *sender,
            content: Wire::shared(content)?,
        };
        self.stored.push(stored)?;
        Ok(())
    }

    /// How many entries a channel has. It takes no more than a million.
    fn count(&self, channel: &Channel) -> u64
        ensures { result ≤ 1000000 }
    {
        let mut count = 0u64;
        for stored in &self.stored {
            if stored.channel == *channel {
                count = count.saturating_add(1);
            }
        }
        count.min(1_000_000)
    }
}

impl Keep for Shelf {
    ghost is_sound = { λ shelf. Unit {0} };

    ghost keeps = { λ shelf channels disk. ⊥ };

    ghost logs = { record { finds = λ channel files found. ⊥; lists = λ channel files list. ⊥; owns = λ channel file. ⊥; old = λ channel file. ⊥ } };

    ghost is_loaded = { λ shelf channel. Unit {0} };

    ghost has_entry = { λ shelf channel index. Unit {0} };

    fn store_entry<V: Volume>(
        &mut self,
        alloc: Global,
        volume: &mut V,
        channel: &Channel,
        moment: u64,
        sender: &Id,
        content: &Wire,
    ) -> Result<u64, KeeperRefused> {
        if volume.sync("shelf").is_err() {
            return Err(KeeperRefused::Store);
        }
        let index = self.count(channel);
        match self.push(alloc, channel, moment, sender, content) {
            Ok(()) => Ok(index),
            Err(error) => Err(KeeperRefused::NoMemory(error)),
        }
    }

    fn find_span<V: Volume>(
        &mut self,
        _alloc: Global,
        _volume: &mut V,
        ask: &Ask,
    ) -> Result<Span, KeeperRefused> {
        match ask {
            Ask::History(_, Since::Known(_)) => Ok(Span::Unknown),
            Ask::History(channel, _) => Ok(Span::Found(0, self.count(channel))),
            Ask::At(channel, index) => {
                let total = self.count(channel);
                Ok(Span::Found(u64::from(*index).min(total), total))
            }
        }
    }

    fn entry_for<V: Volume>(
        &mut self,
        _alloc: Global,
        _volume: &mut V,
        ask: &Ask,
        index: u64,
    ) -> Result<Entry, KeeperRefused> {
        let channel = match ask {
            Ask::History(channel, _) => channel,
            Ask::At(channel, _) => channel,
        };
        let mut left = index;
        for stored in &self.stored {
            if stored.channel == *channel {
                if left == 0 {
                    return match stored.content.copy() {
                        Ok(content) => Ok(Entry {
                            index,
                            moment: stored.moment,
                            sender: stored.sender,
                            content,
                        }),
                        Err(error) => Err(KeeperRefused::NoMemory(error)),
                    };
                }
                left = left.saturating_sub(1);
            }
        }
        Err(KeeperRefused::Damaged(Damage::Entry(index)))
    }

    fn crashes_leave_what_is_held() {}

    fn live_is_loaded() {}

    fn reads_what_is_held() {}
}
