//! The octets of an authority, and of a path and query (RFC 3986, sections 2 and 3).

ghost use Rattle.std.specs.Prelude.{◌≡◌, ◌≤◌, length};
ghost use Rattle.std.specs.List.{list_all};
ghost use Rattle.std.specs.Char.{is_ascii_digit, is_ascii_hexdigit};
ghost use Rattle.http_uri.specs.ByteClasses as bytes;
ghost use Rattle.url_key.specs.Text.{host_of as host_named};
ghost use Rattle.http_reading.specs.Uri as spec;

use url_key::Key;

/// Whether a key is that of a URI: `Key` takes octets that no URI has, such as `|` and `%zz`.
pub(crate) fn is_uri_key(key: &Key) -> bool
    ensures { result ≡ spec.is_uri_key key.now }
{
    is_authority(key.authority()) && is_written(b":@/?", key.path_and_query())
}

/// Whether the value is an authority without userinfo: a host, and perhaps `:` and digits (RFC
/// 9110, section 7.2).
pub(crate) fn is_authority(value: &[u8]) -> bool
    ensures { result ≡ spec.is_authority value.now }
{
    let host = host_of(value);
    is_host(host) && may_follow_host(&value[host.len()..])
}

/// The host of an authority: up to the first `]` if it begins with `[`, else before the first `:`.
fn host_of(authority: &[u8]) -> &[u8]
    ensures value { result.now ≡ host_named authority.now }
    ensures within { length result.now ≤ length authority.now }
{
    if authority.first() == Some(&b'[') {
        let end = index_of(b']', authority) + 1;
        &authority[..end.min(authority.len())]
    } else {
        &authority[..index_of(b':', authority)]
    }
}

/// The index of the first such octet, or the length if there is none.
fn index_of(octet: u8, text: &[u8]) -> usize
    ensures value { result ≡ bytes.index_of octet text.now }
    ensures within { result ≤ length text.now }
{
    text.iter().take_while(|b| **b != octet).count()
}

/// Whether the text is a host: an address in brackets, or a name, which may be empty (RFC 3986,
/// section 3.2.2).
fn is_host(host: &[u8]) -> bool
    ensures { result ≡ spec.is_host host.now }
{
    if host.first() == Some(&b'[') {
        is_address(host)
    } else {
        is_written(b"", host)
    }
}

/// Whether the text is an address in brackets: one of IPv6, by its octets, or one of a later kind
/// (RFC 3986, section 3.2.2).
fn is_address(host: &[u8]) -> bool
    ensures { result ≡ spec.is_address host.now }
{
    match host {
        [b'[', address @ .., b']'] => is_ipv6(address) || is_later(address),
        _ => false,
    }
}

/// Whether the text has the octets of an IPv6 address, two colons at least among them. The count of
/// its groups is not judged.
fn is_ipv6(address: &[u8]) -> bool
    ensures { result ≡ spec.is_ipv6 address.now }
{
    has_two_colons(address) && are_of_ipv6(address)
}

/// Whether each octet may stand in an IPv6 address.
fn are_of_ipv6(text: &[u8]) -> bool
    ensures { result ≡ list_all spec.is_of_ipv6 text.now }
{
    text.iter().all(|octet| is_of_ipv6(*octet))
}

/// Whether a colon stands in the text, and another one behind the first.
fn has_two_colons(text: &[u8]) -> bool
    ensures { result ≡ spec.has_two_colons text.now }
{
    let first = index_of(b':', text);
    first < text.len() && has_colon(&text[first + 1..])
}

/// Whether a colon stands in the text.
fn has_colon(text: &[u8]) -> bool
    ensures { result ≡ spec.has_colon text.now }
{
    text.iter().any(|octet| *octet == b':')
}

/// Whether the octet may stand in an IPv6 address.
fn is_of_ipv6(octet: u8) -> bool
    ensures { result ≡ spec.is_of_ipv6 octet }
{
    octet.is_ascii_hexdigit() || octet == b':' || octet == b'.'
}

/// Whether the text is an address of a later kind: `v`, hexadecimal digits, `.`, and plain octets
/// or colons.
fn is_later(address: &[u8]) -> bool
    ensures { result ≡ spec.is_later address.now }
{
    let dot = index_of(b'.', address);
    dot >= 2
        && dot + 2 <= address.len()
        && is_one_of(b"vV", address[0])
        && are_hexadecimal(&address[1..dot])
        && are_of_later(&address[dot + 1..])
}

/// Whether each octet is a hexadecimal digit.
fn are_hexadecimal(text: &[u8]) -> bool
    ensures { result ≡ list_all is_ascii_hexdigit text.now }
{
    text.iter().all(|octet| octet.is_ascii_hexdigit())
}

/// Whether each octet may stand behind the version of a later kind of address.
fn are_of_later(text: &[u8]) -> bool
    ensures { result ≡ list_all spec.is_of_later text.now }
{
    text.iter().all(|octet| is_plain(*octet) || *octet == b':')
}

/// Whether the text may follow a host: nothing, or `:` and digits, which may be none.
fn may_follow_host(rest: &[u8]) -> bool
    ensures { result ≡ spec.may_follow_host rest.now }
{
    match rest.split_first() {
        Some((octet, digits)) => *octet == b':' && are_digits(digits),
        None => true,
    }
}

/// Whether each octet is a decimal digit.
fn are_digits(text: &[u8]) -> bool
    ensures { result ≡ list_all is_ascii_digit text.now }
{
    text.iter().all(|octet| octet.is_ascii_digit())
}

/// Whether each octet of the text may stand where it does: plain octets, those of `others`, and `%`
/// before two hexadecimal digits.
#[tactic(auto, unfolding(crate::specs::Uri::is_written), using(crate::proofs::Octets::next_octet, crate::proofs::Octets::no_octet))]
fn is_written(others: &[u8], text: &[u8]) -> bool
    ensures { result ≡ spec.is_written others.now text.now }
{
    let mut rest = text;
    while let Some((octet, behind)) = rest.split_first() {
        if !may_stand(others, *octet, behind) {
            return false;
        }
        rest = behind;
    }
    true
}

/// Whether the octet may stand before this text.
fn may_stand(others: &[u8], octet: u8, behind: &[u8]) -> bool
    ensures { result ≡ spec.may_stand others.now octet behind.now }
{
    if octet == b'%' {
        begins_with_digits(behind)
    } else {
        is_plain(octet) || is_one_of(others, octet)
    }
}

/// Whether two hexadecimal digits stand first.
fn begins_with_digits(text: &[u8]) -> bool
    ensures { result ≡ spec.begins_with_digits text.now }
{
    match text {
        [first, second, ..] => first.is_ascii_hexdigit() && second.is_ascii_hexdigit(),
        _ => false,
    }
}

/// Whether the octet stands for itself in a host, a path and a query (RFC 3986, sections 2.2 and
/// 2.3).
fn is_plain(octet: u8) -> bool
    ensures { result ≡ spec.is_plain octet }
{
    octet.is_ascii_alphanumeric() || is_one_of(b"-._~!$&'()*+,;=", octet)
}

/// Whether the octet is one of these.
fn is_one_of(octets: &[u8], octet: u8) -> bool
    ensures { result ≡ spec.is_one_of octets.now octet }
{
    octets.iter().any(|other| *other == octet)
}
