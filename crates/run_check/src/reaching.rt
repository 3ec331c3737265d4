//! Whether a response of an origin or of a foreign cache reaches a read or a fetch that is pending.
ghost use Rattle.std.specs.Prelude.{◌≡◌, ◌↔◌, IsTrue};
ghost use Rattle.run_rules.specs.Judging.{Reaches, IsPending, is_read as is_origin_fetch};
ghost use Rattle.run_rules.specs.Judging.{is_foreign_fetch as is_fetch_from};

use floor_rules::MemoryFloors;
use node_copies::same_key;
use node_core::Node;
use node_rules::{Event, Fetch};
use roster::is_foreign;
use url_key::Key;

/// Whether a fetch is an origin read.
fn is_read(fetch: &Fetch<()>) -> bool
    ensures { result ≡ is_origin_fetch fetch.now }
{
    matches!(fetch, Fetch::AtOrigin { .. })
}

/// Whether a fetch is one from this foreign cache.
fn is_foreign_fetch(fetch: &Fetch<()>, cache: u8) -> bool
    ensures { result ≡ is_fetch_from cache fetch.now }
{
    match fetch {
        Fetch::AtPeer { peer, .. } => is_foreign(cache) && *peer == cache,
        _ => false,
    }
}

/// Whether an origin read is pending under this serial, for this key.
fn has_read(node: &Node<(), MemoryFloors>, serial: u32, key: &Key) -> bool
    ensures { IsTrue result ↔ IsPending node.now.state serial key.now is_origin_fetch }
{
    match node.fetching(serial) {
        Some(pending) => same_key(&pending.ask.key, key) && is_read(&pending.fetch),
        None => false,
    }
}

/// Whether a fetch from this foreign cache is pending under this serial, for this key.
fn has_foreign_fetch(node: &Node<(), MemoryFloors>, serial: u32, cache: u8, key: &Key) -> bool
    ensures { IsTrue result ↔ IsPending node.now.state serial key.now (is_fetch_from cache) }
{
    match node.fetching(serial) {
        Some(pending) => {
            same_key(&pending.ask.key, key) && is_foreign_fetch(&pending.fetch, cache)
        }
        None => false,
    }
}

/// Whether a response of an origin or of a foreign cache reaches a read or a fetch that is pending.
/// True for other events.
pub(crate) fn reaches(node: &Node<(), MemoryFloors>, event: &Event<()>) -> bool
    ensures { IsTrue result ↔ Reaches node.now.state event.now }
{
    match event {
        Event::OriginAnswer { serial, key, .. } => has_read(node, *serial, key),
        Event::ForeignAnswer {
            serial,
            peer,
            key,
            ..
        } => has_foreign_fetch(node, *serial, *peer, key),
        _ => true,
    }
}
