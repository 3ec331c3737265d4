//! The CLRs of purges and of admissions.
ghost use Rattle.std.specs.Prelude.{◌≡◌, IfOk};
ghost use Rattle.htcp_wire.specs.Written.{Fits};
ghost use Rattle.purge_rules.specs.Clear.{clear as clear_of, base_clear as base_clear_of};
ghost use Rattle.purge_rules.specs.Clear.{clear_with, number_line, base_line};

use htcp_wire::{Content, Htcp, Specifier};
use itoa::Buffer;
use std::alloc::{AllocError, Global};
use url_key::Key;
use values_plain::Octets;

/// The CLR that a member gets for a purge of the key (RFC 2756, section 6.5). Its TRANS-ID is the
/// purge's number, and so is the value of its header line `X-Purge-Number`. It desires a response,
/// and has REASON 0. `htcp_wire::encode` can write it (`fits`).
pub fn clear(alloc: Global, number: u32, key: &Key) -> Result<Htcp, AllocError>
    ensures value { IfOk result (λ message. message ≡ clear_of number key.now) }
    ensures fits { IfOk result Fits }
{
    let uri = Octets::from_slice(alloc, key.text())?;
    let line = number_line(alloc, number)?;
    Ok(clear_with(alloc, number, uri, line)?)
}

/// The CLR that a node gets that is admitted under this number. It is as the CLR of a purge, but
/// has an empty URI, and `X-Purge-Base` in place of `X-Purge-Number`. `htcp_wire::encode` can write
/// it (`fits`).
pub fn base_clear(alloc: Global, number: u32) -> Result<Htcp, AllocError>
    ensures value { IfOk result (λ message. message ≡ base_clear_of number) }
    ensures fits { IfOk result Fits }
{
    let line = base_line(alloc, number)?;
    Ok(clear_with(alloc, number, Octets::from_vec(Vec::new(alloc)), line)?)
}

/// The CLR with this number as its TRANS-ID, this URI and these headers.
fn clear_with(alloc: Global, number: u32, uri: Octets, headers: Octets) -> Result<Htcp, AllocError>
    ensures { IfOk result (λ message. message ≡ clear_with number uri headers) }
{
    let spec = Specifier {
        method: Octets::from_slice(alloc, b"GET")?,
        uri,
        version: Octets::from_slice(alloc, b"HTTP/1.1")?,
        request_headers: headers,
    };
    Ok(Htcp {
        minor: 0,
        trans: number,
        content: Content::ClrAsk {
            desired: true,
            reason: 0,
            spec,
        },
    })
}

/// The header line with the purge's number: `X-Purge-Number`, the number in decimals, CRLF.
fn number_line(alloc: Global, number: u32) -> Result<Octets, AllocError>
    ensures { IfOk result (λ line. line ≡ number_line number) }
{
    let mut buffer = Buffer::new();
    let mut line = Vec::with_capacity(alloc, 28)?;
    line.extend_from_slice(b"X-Purge-Number: ")?;
    line.extend_from_slice(buffer.format(number).as_bytes())?;
    line.extend_from_slice(b"\r\n")?;
    Ok(Octets::from_vec(line))
}

/// The header line with the admission's number: `X-Purge-Base`, the number in decimals, CRLF.
fn base_line(alloc: Global, number: u32) -> Result<Octets, AllocError>
    ensures { IfOk result (λ line. line ≡ base_line number) }
{
    let mut buffer = Buffer::new();
    let mut line = Vec::with_capacity(alloc, 26)?;
    line.extend_from_slice(b"X-Purge-Base: ")?;
    line.extend_from_slice(buffer.format(number).as_bytes())?;
    line.extend_from_slice(b"\r\n")?;
    Ok(Octets::from_vec(line))
}
