//! Finds items that are twice in a list.
ghost use Rattle.std.specs.Prelude.{◌≡◌, ◌==◌, is_some, bytes_eq};
ghost use Rattle.std.specs.List.{list_any};
ghost use Rattle.roster.specs.Judged.{has_doubles, clashes, same_origin, same_peer};
ghost use Rattle.roster.specs.Lookups.{same_address};

use crate::{Address, Cache, Origin, Peer};

/// An item that must not be twice in a list.
pub(crate) trait Distinct {
    ghost use Rattle.std.specs.Prelude.{Bool, ◌≡◌, is_some};

    /// Whether two items are the same.
    ghost same: { Self → Self → Bool };

    /// The key by which this is the same as another.
    fn clash(&self, other: &Self) -> Option<&'static str>
        ensures { is_some result ≡ same self.now other.now };
}

impl Distinct for &Cache {
    ghost same = { λ a b. clashes a.now b.now };

    /// Caches: by id, by name or by HTTP address.
    fn clash(&self, other: &Self) -> Option<&'static str> {
        if self.id == other.id {
            Some("id")
        } else if self.name.as_slice() == other.name.as_slice() {
            Some("name")
        } else if self.http == other.http {
            Some("http")
        } else {
            None
        }
    }
}

impl Distinct for Address {
    ghost same = { same_address };

    /// UDP addresses: by address and port.
    fn clash(&self, other: &Self) -> Option<&'static str> {
        if *self == *other { Some("htcp") } else { None }
    }
}

impl Distinct for Origin {
    ghost same = { same_origin };

    /// Origins: by host and port.
    fn clash(&self, other: &Self) -> Option<&'static str> {
        if self.host.as_slice() == other.host.as_slice() && self.port == other.port {
            Some("host")
        } else {
            None
        }
    }
}

impl Distinct for Peer {
    ghost same = { same_peer };

    /// Peers: by id.
    fn clash(&self, other: &Self) -> Option<&'static str> {
        if self.id == other.id {
            Some("id")
        } else {
            None
        }
    }
}

/// The key by which an item is the same as one of some others.
fn clash_among<T: Distinct>(item: &T, others: &[T]) -> Option<&'static str>
    ensures { is_some result ≡ list_any (T.same item.now) others.now }
{
    match others {
        [] => None,
        [first, rest @ ..] => match item.clash(first) {
            Some(key) => Some(key),
            None => clash_among(item, rest),
        },
    }
}

/// The index of the first item that is the same as one behind it, and the key by which it is.
pub(crate) fn first_double<T: Distinct>(items: &[T]) -> Option<(usize, &'static str)>
    ensures { is_some result ≡ has_doubles T.same items.now }
{
    match items {
        [] => None,
        [first, rest @ ..] => match clash_among(first, rest) {
            Some(key) => Some((0, key)),
            None => match first_double(rest) {
                Some((index, key)) => Some((index.saturating_add(1), key)),
                None => None,
            },
        },
    }
}
