//! The event that a node gets at the end of a fetch.
ghost use Rattle.std.specs.Prelude.{◌≡◌};
ghost use Rattle.cluster_fetch.specs.Fetched.{event_of_answer, event_of_fetch};
ghost use Rattle.cluster_fetch.specs.Fetched.{is_told as may_be_told};

use http_messages::Answer;
use node_rules::{Event, is_gateway_fault};
use url_key::Key;

/// Where a response comes from.
#[derive(Clone, Copy, Debug, PartialEq, Eq)]
pub enum ResponseSource {
    /// The member of this id, 1 to 16.
    Member(u8),
    /// The foreign cache of this id, 101 to 108.
    Foreign(u8),
    /// The origin.
    Origin,
}

/// Whether the node gets the response, and not a failure.
fn is_told(source: ResponseSource, answer: &Answer) -> bool
    ensures { result ≡ may_be_told source answer.now }
{
    match source {
        ResponseSource::Member(_) => !is_gateway_fault(answer.status()) && answer.stamp().is_some(),
        ResponseSource::Foreign(_) => !is_gateway_fault(answer.status()),
        ResponseSource::Origin => true,
    }
}

/// The event of a fetch with this serial and key that ended at this moment, in seconds, with a
/// response or without one.
pub fn fetched(
    source: ResponseSource,
    serial: u32,
    key: Key,
    answer: Option<Answer>,
    now: u64,
) -> Event<()>
    ensures { result ≡ event_of_fetch source serial key answer now }
{
    match answer {
        Some(answer) if is_told(source, &answer) => came(source, serial, key, answer, now),
        _ => Event::FetchFailed { serial, now },
    }
}

/// The event of a response that the node gets.
fn came(source: ResponseSource, serial: u32, key: Key, answer: Answer, now: u64) -> Event<()>
    ensures { result ≡ event_of_answer source serial key answer now }
{
    match source {
        ResponseSource::Member(peer) => Event::PeerAnswer {
            serial,
            peer,
            key,
            answer,
            tag: (),
            now,
        },
        ResponseSource::Foreign(peer) => Event::ForeignAnswer {
            serial,
            peer,
            key,
            answer,
            tag: (),
            now,
        },
        ResponseSource::Origin => Event::OriginAnswer {
            serial,
            key,
            answer,
            now,
        },
    }
}
