//! Cuts an authority and a key's text into their parts, and writes a key's text.
ghost use Rattle.std.specs.Prelude.{◌≡◌, ◌==◌, ◌<◌, ◌≤◌, ◌++◌, length, codes, [], IfOk, OnOk};
ghost use Rattle.std.specs.Prelude.{IsTrue, option_copied};
ghost use Rattle.std.specs.List.{list_all, list_any};
ghost use Rattle.std.specs.Char.{is_ascii_digit};
ghost use Rattle.std.specs.Str.Parse.{digits_value};
ghost use Rattle.http_uri.specs.ByteClasses as bytes;
ghost use Rattle.http_uri.specs.ByteClasses.{framed_text};
ghost use Rattle.http_uri.specs.Grammar.{authority_len};
ghost use Rattle.url_key.specs.Text.{is_visible, port_by as port_written, port_of as port_named};
ghost use Rattle.url_key.specs.Text.{host_of as host_named, after_host as behind_host};
ghost use Rattle.url_key.specs.Text.{key_authority, key_path};
ghost use Rattle.url_key.specs.Text.{canonical_text as text_of_key, http_prefix, port_text};

use itoa::Buffer;
use std::alloc::{AllocError, Global};

/// The default port of http (RFC 9110, section 4.2.1).
pub(crate) const HTTP_PORT: u16 = 80;

/// The length of `http://`.
const PREFIX_LEN: usize = 7;

/// Whether each octet is a visible character of ASCII, `!` to `~`.
pub(crate) fn all_visible(text: &[u8]) -> bool
    ensures { result ≡ list_all is_visible text.now }
{
    text.iter().all(|b| 33 <= *b && *b <= 126)
}

/// Whether the octet is in the text.
pub(crate) fn has(octet: u8, text: &[u8]) -> bool
    ensures { result ≡ list_any (λ b. b == octet) text.now }
{
    text.iter().any(|b| *b == octet)
}

/// The index of the first such octet, or the length if there is none.
fn index_of(octet: u8, text: &[u8]) -> usize
    ensures value { result ≡ bytes.index_of octet text.now }
    ensures within { result ≤ length text.now }
{
    text.iter().take_while(|b| **b != octet).count()
}

/// The host of an authority without userinfo (RFC 3986, section 3.2.2). A host that begins with `[`
/// ends with the first `]`, any other before the first `:`.
pub(crate) fn host_of(authority: &[u8]) -> &[u8]
    ensures { result.now ≡ host_named authority.now }
{
    if authority.first() == Some(&b'[') {
        let end = index_of(b']', authority) + 1;
        &authority[..end.min(authority.len())]
    } else {
        &authority[..index_of(b':', authority)]
    }
}

/// What follows the host: nothing, or `:` and the port, if the port is good.
pub(crate) fn after_host(authority: &[u8]) -> &[u8]
    ensures { result.now ≡ behind_host authority.now }
{
    let host = host_of(authority);
    &authority[host.len()..]
}

/// Whether each octet is a decimal digit.
fn all_digits(text: &[u8]) -> bool
    ensures { result ≡ list_all is_ascii_digit text.now }
{
    text.iter().all(|b| b'0' <= *b && *b <= b'9')
}

/// The number that at most five decimal digits spell.
#[tactic(auto, using(crate::proofs::TextLemmas::few_digits, crate::proofs::TextLemmas::next_digit))]
fn number_of(digits: &[u8]) -> u32
    requires few { length digits.now ≤ 5 }
    requires decimal { IsTrue (list_all is_ascii_digit digits.now) }
    ensures { result ≡ digits_value 10 digits.now }
{
    let mut number = 0u32;
    for digit in digits {
        number = number * 10 + u32::from(*digit - b'0');
    }
    number
}

/// The port that follows a host: 80 if nothing or `:` alone follows, `None` if what follows is not
/// `:` and a port from 1 to 65535.
pub(crate) fn port_of(rest: &[u8]) -> Option<u16>
    ensures { result ≡ port_named rest.now }
{
    let Some((first, digits)) = rest.split_first() else {
        return Some(HTTP_PORT);
    };
    if *first == b':' {
        port_number(digits)
    } else {
        None
    }
}

/// The port that 1 to 5 digits spell, 80 if there are none. `None` for 0, for more than 65535, and
/// for anything else.
fn port_number(digits: &[u8]) -> Option<u16>
    ensures { result ≡ port_written digits.now }
{
    if digits.is_empty() {
        return Some(HTTP_PORT);
    }
    if digits.len() > 5 || !all_digits(digits) {
        return None;
    }
    let port = number_of(digits);
    if port == 0 || port > 65535 {
        return None;
    }
    Some(port as u16)
}

/// The authority of a key's text.
pub(crate) fn authority_of(key: &[u8]) -> &[u8]
    requires { length http_prefix ≤ length key.now }
    ensures { result.now ≡ key_authority key.now }
{
    let rest = &key[PREFIX_LEN..];
    &rest[..authority_end(rest)]
}

/// What follows the authority of a key's text: path and query.
pub(crate) fn path_of(key: &[u8]) -> &[u8]
    requires { length http_prefix ≤ length key.now }
    ensures { result.now ≡ key_path key.now }
{
    let rest = &key[PREFIX_LEN..];
    &rest[authority_end(rest)..]
}

/// The index where the authority at the front ends: the first `/`, `?` or `#`, or the length.
fn authority_end(text: &[u8]) -> usize
    ensures value { result ≡ authority_len text.now }
    ensures within { result ≤ length text.now }
{
    text.iter()
        .take_while(|b| !matches!(**b, b'/' | b'?' | b'#'))
        .count()
}

/// The text of the key with these parts, in a `Vec` with a capacity of `room` octets.
pub(crate) fn canonical_text(
    alloc: Global,
    room: usize,
    host: &[u8],
    port: u16,
    path: &str,
    query: Option<&str>,
) -> Result<Vec<u8>, AllocError>
    ensures { IfOk result
        (λ text. text.items ≡ text_of_key host.now port path.now (option_copied query.entry)) }
{
    let mut text = Vec::with_capacity(alloc, room)?;
    text.extend_from_slice(b"http://")?;
    text.extend_from_slice(host)?;
    text.as_mut_slice().make_ascii_lowercase();
    push_port(&mut text, port)?;
    text.extend_from_slice(path.as_bytes())?;
    push_query(&mut text, query)?;
    Ok(text)
}

/// Appends `:` and the port, unless it is 80.
fn push_port(text: &mut Vec<u8>, port: u16) -> Result<(), AllocError>
    ensures { OnOk result (text.new.items ≡ text.old.items ++ port_text port) }
{
    if port != HTTP_PORT {
        let mut buffer = Buffer::new();
        text.push(b':')?;
        text.extend_from_slice(buffer.format(port).as_bytes())?;
    }
    Ok(())
}

/// Appends `?` and the query, if there is one.
fn push_query(text: &mut Vec<u8>, query: Option<&str>) -> Result<(), AllocError>
    ensures { OnOk result (text.new.items
        ≡ text.old.items ++ framed_text (codes "?") (option_copied query.entry) []) }
{
    if let Some(query) = query {
        text.push(b'?')?;
        text.extend_from_slice(query.as_bytes())?;
    }
    Ok(())
}
