//! How many connections come from each address: those that wait, or those of responses under way.
ghost use Rattle.std.specs.Prelude.{◌≡◌, ◌<◌, ◌+◌, true, false, pred};
ghost use Rattle.cluster_sockets.specs.Counts.{count_at, goes_first};

use std::alloc::Global;
use std::collections::BTreeMap;

/// How many connections come from each IPv4 address: those whose requests wait, or those of
/// responses under way.
#[derive(Drop)]
pub(crate) struct PerAddress {
    counts: BTreeMap<u32, u32>,
}

impl PerAddress {
    /// No connections. It takes no memory.
    pub(crate) fn new(alloc: Global) -> PerAddress {
        PerAddress {
            counts: BTreeMap::new(alloc),
        }
    }

    /// How many connections of an address are counted.
    pub(crate) fn count(&self, ip: u32) -> u32
        ensures { result ≡ count_at self.now.counts ip }
    {
        self.counts.get(&ip).copied().unwrap_or(0)
    }

    /// Whose connection goes where no more may wait and one more comes from this address: its own
    /// where `most` of its connections wait, and anybody's (`None`) where fewer do.
    pub(crate) fn goes_first(&self, most: u32, ip: u32) -> Option<u32>
        ensures { result ≡ goes_first most (count_at self.now.counts ip) ip }
    {
        if self.count(ip) < most {
            None
        } else {
            Some(ip)
        }
    }

    /// Counts one more connection of an address. Returns false, and counts nothing, where there is
    /// no memory, or no greater number.
    pub(crate) fn add(&mut self, ip: u32) -> bool
        ensures counted { result ≡ true →
            count_at self.new.counts ip ≡ 1 + count_at self.old.counts ip }
        ensures kept { result ≡ false → self.new.counts.entries ≡ self.old.counts.entries }
    {
        let count = self.count(ip);
        if count == u32::MAX {
            return false;
        }
        match self.counts.insert(ip, count + 1) {
            Ok(_) => true,
            Err(_) => false,
        }
    }

    /// Counts one connection of an address less.
    pub(crate) fn remove(&mut self, ip: u32)
        ensures { count_at self.new.counts ip ≡ pred (count_at self.old.counts ip) }
    {
        match self.counts.get_mut(&ip) {
            Some(count) if *count > 1 => *count -= 1,
            Some(_) => {
                let _ = self.counts.remove(&ip);
            }
            None => {}
        }
    }
}
