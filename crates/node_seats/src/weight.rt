//! How many octets an event brings along.
ghost use Rattle.std.specs.Prelude.{◌≡◌, ◌≤◌};
ghost use Rattle.node_seats.specs.Weight.{content_octets as octets_of_content};
ghost use Rattle.node_seats.specs.Weight.{detail_octets as octets_of_detail};
ghost use Rattle.node_seats.specs.Weight.{message_octets as octets_of_message};
ghost use Rattle.node_seats.specs.Weight.{octets_of as octets_of_event};
ghost use Rattle.node_seats.specs.Weight.{specifier_octets as octets_of_specifier};
ghost use Rattle.node_seats.specs.Weight.{text_octets as octets_of_text};

use htcp_wire::{Content, Detail, Specifier};
use node_rules::{Event, Message};
use values_plain::Octets;

/// The longest text of a message that was read, in octets (RFC 2756, "COUNTSTR").
const LONGEST_TEXT: usize = 65_535;

/// The octets of one text of a message.
fn text_octets(text: &Octets) -> u64
    ensures value { result ≡ octets_of_text text.now }
    ensures bound { result ≤ 65535 }
{
    text.len().min(LONGEST_TEXT) as u64
}

/// The octets of a SPECIFIER: method, URI, version and request headers.
fn specifier_octets(spec: &Specifier) -> u64
    ensures value { result ≡ octets_of_specifier spec.now }
    ensures bound { result ≤ 262140 }
{
    text_octets(&spec.method)
        + text_octets(&spec.uri)
        + text_octets(&spec.version)
        + text_octets(&spec.request_headers)
}

/// The octets of a DETAIL: response, entity and cache headers.
fn detail_octets(detail: &Detail) -> u64
    ensures value { result ≡ octets_of_detail detail.now }
    ensures bound { result ≤ 262140 }
{
    text_octets(&detail.response_headers)
        + text_octets(&detail.entity_headers)
        + text_octets(&detail.cache_headers)
}

/// The octets of the texts in what an HTCP message says.
fn content_octets(content: &Content) -> u64
    ensures value { result ≡ octets_of_content content.now }
    ensures bound { result ≤ 262140 }
{
    match content {
        Content::TstAsk { spec, .. } | Content::ClrAsk { spec, .. } => specifier_octets(spec),
        Content::TstHit { detail } => detail_octets(detail),
        Content::TstMiss { cache } => text_octets(cache),
        _ => 0,
    }
}

/// The octets of the texts in a datagram.
fn message_octets(message: &Message) -> u64
    ensures value { result ≡ octets_of_message message.now }
    ensures bound { result ≤ 262140 }
{
    match message {
        Message::Icp(message) => text_octets(&message.url) + text_octets(&message.object),
        Message::Htcp(message) => content_octets(&message.content),
    }
}

/// How many octets an event brings along: those of the texts of a datagram, or the size of an
/// answer as a store counts it; 0 for any other event. At most 262,140.
pub fn octets_of(event: &Event<()>) -> u64
    ensures value { result ≡ octets_of_event event.now }
    ensures bound { result ≤ 262140 }
{
    match event {
        Event::Datagram { message, .. } => message_octets(message.message()),
        Event::PeerAnswer { answer, .. }
        | Event::OriginAnswer { answer, .. }
        | Event::ForeignAnswer { answer, .. } => answer.size(),
        _ => 0,
    }
}
