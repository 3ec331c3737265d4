//! Reading requests.
ghost use Rattle.std.specs.Prelude.{◌≡◌, ◌⊎◌, ◌++◌, IfOk, IfErr, IsTrue, MatchResult, codes, Ok};
ghost use Rattle.std.specs.Prelude.{Err};
ghost use Rattle.httparse.specs.Spans.{IsRequestWithin};
ghost use Rattle.http_reading.specs.AskFields.{host_text};
ghost use Rattle.http_reading.specs.AskHead as head_rules;
ghost use Rattle.http_reading.specs.AskHead.{KeyOf, head_at, url_by};
ghost use Rattle.http_reading.specs.Asks.{ReadsAsk, fault_in as fault_told};

use crate::uri::{is_authority, is_uri_key};
use crate::version::is_in_target;
use crate::{Host, ask_has_body, has_credentials, host_of, is_no_cache, is_only_if_cached, member};
use http_intake::Intake;
use http_messages::{Ask, FetchFault, MOST_FIELDS};
use httparse::spans::{EMPTY_HEADER_SPAN, HeaderSpan, RequestSpans};
use std::alloc::{AllocError, Global};
use std::io::Read;
use url_key::{Key, KeyFault};

/// Reads a request (RFC 9112, section 3): a head, and no body. Octets after the head may be taken
/// from the reader too, and are lost; at most 20,480 octets are taken in all.
///
/// Faults while the head is read:
///
/// - `BadHead`: no octets that follow can make it a head;
/// - `BadTarget`: its first 16,384 octets end in the target;
/// - `HeadTooLong`: it has more than 16,384 octets or 64 fields otherwise;
/// - `EndOfInput`: the input ended first;
/// - `TooManyTurns`: 70,000 calls of the reader, the most that are made, gave octets, and not the
///   whole head;
/// - `Io`: the reader failed;
/// - `NoMemory`: there was no memory.
///
/// Faults of a whole head, in this order:
///
/// - `BadHead`: there are several `host` fields, one that is no authority, or none in an HTTP/1.1
///   request or with a path as target (RFC 9112, section 3.2);
/// - `MethodNotServed`: the method is not GET;
/// - `BadTarget`: the URL has no key, or one with octets that no URI has; the URL is a path at its
///   host, or any other target as it stands (section 3.3);
/// - `Credentials`: there is an `authorization` or a `proxy-authorization` field;
/// - `BadBody`: there is a `transfer-encoding` field, or a `content-length` field that is not 0.
///
/// `NoMemory` may come while the target is read, too.
pub fn read_ask<R: Read>(alloc: Global, reader: &mut R) -> Result<Ask, FetchFault>
    ensures { ReadsAsk (R.remaining reader.old) (R.remaining reader.new) result }
{
    let mut intake = Intake::new(alloc);
    let mut headers = [EMPTY_HEADER_SPAN; MOST_FIELDS];
    match intake.read_request_head(reader, 0, headers.as_mut_slice()) {
        Ok(head) => judge(alloc, intake.window(0), head, headers.as_slice()),
        Err(fault) => Err(fault_in(intake.window(0), fault)),
    }
}

/// The fault of a head that did not come: `BadTarget` where the limit of a head lies in its target
/// (RFC 9112, section 3).
fn fault_in(window: &[u8], fault: FetchFault) -> FetchFault
    ensures { result ≡ fault_told window.now fault }
{
    match fault {
        FetchFault::HeadTooLong if is_in_target(window) => {
            FetchFault::BadTarget(KeyFault::TooLong)
        }
        fault => fault,
    }
}

/// The request that a head makes, or its first fault.
fn judge(
    alloc: Global,
    window: &[u8],
    head: RequestSpans,
    headers: &[HeaderSpan],
) -> Result<Ask, FetchFault>
    requires { IsRequestWithin window.now headers.now head }
    ensures says { MatchResult result
        (λ ask. head_rules.Says (head_at window.now headers.now head) (Ok ask))
        (λ fault. (fault ≡ FetchFault.NoMemory)
        ⊎ head_rules.Says (head_at window.now headers.now head) (Err fault)) }
    ensures faults { IfErr result (λ fault. IsTrue (head_rules.is_ask_fault fault)) }
{
    let (headers, _) = headers.split_at(head.headers);
    let target = head.path.of(window);
    let host = host_of(window, headers);
    if !may_have(host, head.version, target) {
        return Err(FetchFault::BadHead);
    }
    if head.method.of(window) != b"GET".as_slice() {
        return Err(FetchFault::MethodNotServed);
    }
    let key = key_of(alloc, host, target)?;
    if !is_uri_key(&key) {
        return Err(FetchFault::BadTarget(KeyFault::NotUri));
    }
    if has_credentials(window, headers) {
        return Err(FetchFault::Credentials);
    }
    if ask_has_body(window, headers) {
        return Err(FetchFault::BadBody);
    }
    Ok(Ask {
        key,
        only_if_cached: is_only_if_cached(window, headers),
        no_cache: is_no_cache(window, headers),
        member: member(window, headers),
    })
}

/// Whether a request of this version and target may have these `host` fields: one that is an
/// authority, or none in HTTP/1.0 where the target is not a path (RFC 9112, section 3.2).
fn may_have(host: Host<'_>, minor: u8, target: &[u8]) -> bool
    ensures { result ≡ head_rules.may_have (host_text host.entry) minor target.now }
{
    match host {
        Host::Absent => minor == 0 && !is_origin_form(target),
        Host::One(value) => is_authority(value),
        Host::Several => false,
    }
}

/// Whether the target is a path (RFC 9112, section 3.2.1).
fn is_origin_form(target: &[u8]) -> bool
    ensures { result ≡ head_rules.is_origin_form target.now }
{
    target.first() == Some(&b'/')
}

/// The key of the requested URL: a path at the host, or any other target as it stands (RFC 9112,
/// section 3.3). `BadTarget`: the URL has no key. `NoMemory`: there was no memory.
fn key_of(alloc: Global, host: Host<'_>, target: &[u8]) -> Result<Key, FetchFault>
    ensures { KeyOf (url_by (host_text host.entry) target.now) result }
{
    if !is_origin_form(target) {
        return read_key(alloc, target);
    }
    let value = match host {
        Host::One(value) => value,
        Host::Absent | Host::Several => b"".as_slice(),
    };
    let text = url_at(alloc, value, target)?;
    read_key(alloc, &text)
}

/// The URL of a path at a host.
fn url_at(alloc: Global, host: &[u8], target: &[u8]) -> Result<Vec<u8>, AllocError>
    ensures { IfOk result (λ text. text.items ≡ codes "http://" ++ (host.now ++ target.now)) }
{
    let mut text = Vec::new(alloc);
    text.extend_from_slice(b"http://")?;
    text.extend_from_slice(host)?;
    text.extend_from_slice(target)?;
    Ok(text)
}

/// The key of a URL. `BadTarget`: it has none. `NoMemory`: there was no memory.
fn read_key(alloc: Global, text: &[u8]) -> Result<Key, FetchFault>
    ensures { KeyOf text.now result }
{
    match Key::read(alloc, text) {
        Ok(key) => Ok(key),
        Err(KeyFault::NoMemory) => Err(FetchFault::NoMemory),
        Err(fault) => Err(FetchFault::BadTarget(fault)),
    }
}
