//! Keys, asks, answers and datagrams.
use htcp_wire::{Content, Htcp, Specifier};
use http_header::{HeaderName, HeaderValue};
use http_messages::{Answer, Ask, Body, Field, Fields};
use icp_wire::{Icp, IcpOp};
use std::alloc::{AllocError, Global};
use std::test::Fail;
use url_key::Key;
use values_plain::Octets;

/// The key of a URL.
pub fn key_of(alloc: Global, url: &[u8]) -> Result<Key, Fail> {
    Ok(Key::read(alloc, url)?)
}

/// An ask for a URL, of a client or of this member, without `no-cache`.
pub fn ask_of(
    alloc: Global,
    url: &[u8],
    only_if_cached: bool,
    member: Option<u8>,
) -> Result<Ask, Fail> {
    Ok(Ask {
        key: key_of(alloc, url)?,
        only_if_cached,
        no_cache: false,
        member,
    })
}

/// The fields of an answer with a lifetime of 60 seconds.
fn fields_of(alloc: Global) -> Result<Fields, Fail> {
    let name = HeaderName::from_bytes(alloc, b"cache-control")?;
    let value = HeaderValue::from_bytes(alloc, b"max-age=60")?;
    Ok(Fields::new(alloc, vec![in alloc; Field { name, value }]?)?)
}

/// An answer of status 200 with a lifetime of 60 seconds, no age, the body `one`, and this purge
/// number.
pub fn answer_of(alloc: Global, stamp: Option<u32>) -> Result<Answer, Fail> {
    let fields = fields_of(alloc)?;
    let body = Body::from_slice(alloc, b"one")?;
    match Answer::new(200, fields, None, stamp, body) {
        Some(answer) => Ok(answer),
        None => Err("writable".into()),
    }
}

/// A message of ICP with this opcode, this request number and this URL, and no object (RFC 2186).
pub fn icp_of(alloc: Global, op: IcpOp, number: u32, url: &[u8]) -> Result<Icp, AllocError> {
    Ok(Icp {
        op,
        number,
        url: Octets::from_slice(alloc, url)?,
        object: Octets::new(alloc),
    })
}

fn octets_of(alloc: Global, octets: &[u8]) -> Result<Octets, Fail> {
    Ok(Octets::from_slice(alloc, octets)?)
}

/// The header line that tells a purge's number.
fn number_line(alloc: Global, number: u32) -> Result<Octets, Fail> {
    let line = format!(in alloc; "X-Purge-Number: {number}\r\n")?;
    octets_of(alloc, line.as_bytes())
}

fn specifier(alloc: Global, url: &[u8], number: u32) -> Result<Specifier, Fail> {
    Ok(Specifier {
        method: octets_of(alloc, b"GET")?,
        uri: octets_of(alloc, url)?,
        version: octets_of(alloc, b"HTTP/1.1")?,
        request_headers: number_line(alloc, number)?,
    })
}

/// The master's CLR of a URL under this purge number, which is its TRANS-ID too (RFC 2756, "CLR").
pub fn clear_of(alloc: Global, url: &[u8], number: u32) -> Result<Htcp, Fail> {
    let content = Content::ClrAsk {
        desired: true,
        reason: 0,
        spec: specifier(alloc, url, number)?,
    };
    Ok(Htcp {
        minor: 0,
        trans: number,
        content,
    })
}
