//! A fetch that has ended.
ghost use Rattle.std.specs.Prelude.{◌≡◌};
ghost use Rattle.cluster_fetch.specs.Fetched.{event_of_fetch};

use crate::events::{ResponseSource, fetched};
use http_messages::Answer;
use node_rules::Event;
use url_key::Key;

/// A fetch that has ended: whom it asked, for whom, and what came of it.
#[derive(Drop)]
pub struct Fetched {
    /// Whom it asked.
    pub source: ResponseSource,
    /// The serial under which the node waits for it.
    pub serial: u32,
    /// The key that was asked for.
    pub key: Key,
    /// The response; none where the fetch has failed.
    pub answer: Option<Answer>,
    /// Whether it has failed since no connection could be made. It is false where none was tried,
    /// or where this machine lacks what it needs for one.
    pub is_unreached: bool,
}

impl Fetched {
    /// The event that the node gets at this moment, in seconds.
    pub fn into_event(self, now: u64) -> Event<()>
        ensures { result ≡ event_of_fetch self.source self.serial self.key self.answer now }
    {
        fetched(self.source, self.serial, self.key, self.answer, now)
    }
}
