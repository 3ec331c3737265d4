//! Compares messages.
ghost use Rattle.std.specs.Prelude.{◌≡◌, ◌↔◌, IsTrue};

use crate::parts::same_octets;
use htcp_wire::{Content, Detail, Htcp, Specifier};
use icp_wire::Icp;
use node_rules::{Message, Sent};

/// Whether two ICP messages are equal.
fn same_icp(one: &Icp, other: &Icp) -> bool
    ensures { IsTrue result ↔ (one.now ≡ other.now) }
{
    one.op == other.op
        && one.number == other.number
        && same_octets(&one.url, &other.url)
        && same_octets(&one.object, &other.object)
}

/// Whether two SPECIFIERs are equal.
fn same_specifier(one: &Specifier, other: &Specifier) -> bool
    ensures { IsTrue result ↔ (one.now ≡ other.now) }
{
    same_octets(&one.method, &other.method)
        && same_octets(&one.uri, &other.uri)
        && same_octets(&one.version, &other.version)
        && same_octets(&one.request_headers, &other.request_headers)
}

/// Whether two DETAILs are equal.
fn same_detail(one: &Detail, other: &Detail) -> bool
    ensures { IsTrue result ↔ (one.now ≡ other.now) }
{
    same_octets(&one.response_headers, &other.response_headers)
        && same_octets(&one.entity_headers, &other.entity_headers)
        && same_octets(&one.cache_headers, &other.cache_headers)
}

/// Whether two HTCP contents are equal.
fn same_content(one: &Content, other: &Content) -> bool
    ensures { IsTrue result ↔ (one.now ≡ other.now) }
{
    match (one, other) {
        (Content::NopAsk { desired: one }, Content::NopAsk { desired: other }) => one == other,
        (Content::NopAnswer, Content::NopAnswer) => true,
        (
            Content::TstAsk { desired: one, spec },
            Content::TstAsk {
                desired: other,
                spec: other_spec,
            },
        ) => one == other && same_specifier(spec, other_spec),
        (Content::TstHit { detail: one }, Content::TstHit { detail: other }) => {
            same_detail(one, other)
        }
        (Content::TstMiss { cache: one }, Content::TstMiss { cache: other }) => {
            same_octets(one, other)
        }
        (
            Content::ClrAsk {
                desired: one,
                reason,
                spec,
            },
            Content::ClrAsk {
                desired: other,
                reason: other_reason,
                spec: other_spec,
            },
        ) => one == other && reason == other_reason && same_specifier(spec, other_spec),
        (Content::ClrAnswer { code: one }, Content::ClrAnswer { code: other }) => one == other,
        (
            Content::Other {
                opcode: one,
                desired,
            },
            Content::Other {
                opcode: other,
                desired: other_desired,
            },
        ) => one == other && desired == other_desired,
        (
            Content::Overall { opcode: one, code },
            Content::Overall {
                opcode: other,
                code: other_code,
            },
        ) => one == other && code == other_code,
        (
            Content::OtherAnswer { opcode: one, code },
            Content::OtherAnswer {
                opcode: other,
                code: other_code,
            },
        ) => one == other && code == other_code,
        _ => false,
    }
}

/// Whether two HTCP messages are equal.
fn same_htcp(one: &Htcp, other: &Htcp) -> bool
    ensures { IsTrue result ↔ (one.now ≡ other.now) }
{
    one.minor == other.minor
        && one.trans == other.trans
        && same_content(&one.content, &other.content)
}

/// Whether two messages are equal.
pub fn same_message(one: &Message, other: &Message) -> bool
    ensures { IsTrue result ↔ (one.now ≡ other.now) }
{
    match (one, other) {
        (Message::Icp(one), Message::Icp(other)) => same_icp(one, other),
        (Message::Htcp(one), Message::Htcp(other)) => same_htcp(one, other),
        _ => false,
    }
}

/// Whether two messages to send are equal.
pub(crate) fn same_sent(one: &Sent, other: &Sent) -> bool
    ensures { IsTrue result ↔ (one.now ≡ other.now) }
{
    same_message(one.message(), other.message())
}
