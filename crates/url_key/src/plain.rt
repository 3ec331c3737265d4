//! The fast path: texts that one pass shows to be keys, so that they are not cut into parts.
ghost use Rattle.std.specs.Prelude.{◌≡◌, ◌≤◌, ◌==◌, ◌&&◌, length, slice_index};
ghost use Rattle.std.specs.List.{list_all, prefix_len};
ghost use Rattle.http_uri.specs.ByteClasses.{slash};
ghost use Rattle.url_key.specs.Plain.{plain_key, is_host_and_path as has_host_and_path};
ghost use Rattle.url_key.specs.Plain.{is_host_byte as in_host, is_path_byte as in_path};
ghost use Rattle.url_key.specs.Plain.{is_path as has_path};

use crate::key::LONGEST_KEY;

/// The bit of `CLASS` for octets of a host.
const HOST: u8 = 1;

/// The bit of `CLASS` for octets of a path and a query.
const PATH: u8 = 2;

/// For each octet a digit. Its bits `HOST` and `PATH` say whether a plain key may have the octet in
/// its host, and behind it.
static CLASS: [u8; 256] = *b"\
    00000000000000000000000000000000\
    02002222222223323333333333220202\
    22222222222222222222222222222222\
    03333333333333333333333333322220\
    00000000000000000000000000000000\
    00000000000000000000000000000000\
    00000000000000000000000000000000\
    00000000000000000000000000000000";

/// Whether the text is a plain key: `http://`, a host in lower case without a port, and a path with
/// or without a query.
pub(crate) fn is_plain_key(text: &[u8]) -> bool
    ensures { result ≡ plain_key text.now }
{
    if text.len() > LONGEST_KEY {
        return false;
    }
    match text.strip_prefix(b"http://") {
        Some(rest) => is_host_and_path(rest),
        None => false,
    }
}

/// Whether the text is a host in lower case, then `/`, then octets of a path and a query.
fn is_host_and_path(text: &[u8]) -> bool
    ensures { result ≡ has_host_and_path text.now }
{
    let host = host_length(text);
    host > 0 && is_path(&text[host..])
}

/// How many octets at the front may stand in a host in lower case. Tests four at a time.
fn host_length(text: &[u8]) -> usize
    ensures value { result ≡ prefix_len in_host text.now }
    ensures within { result ≤ length text.now }
{
    let mut rest = text;
    while let [a, b, c, d, more @ ..] = rest {
        if !(is_host_byte(*a) & is_host_byte(*b) & is_host_byte(*c) & is_host_byte(*d)) {
            break;
        }
        rest = more;
    }
    text.len() - rest.len() + host_length_by_octets(rest)
}

/// The same, one octet at a time, for the last few.
fn host_length_by_octets(text: &[u8]) -> usize
    ensures value { result ≡ prefix_len in_host text.now }
    ensures within { result ≤ length text.now }
{
    text.iter().take_while(|b| is_host_byte(**b)).count()
}

/// Whether the text is `/` and then only octets of a path and a query.
fn is_path(text: &[u8]) -> bool
    ensures { result ≡ has_path text.now }
{
    text.first() == Some(&b'/') && all_in_path(text)
}

/// Whether each octet may stand in a path or a query. Tests four at a time.
fn all_in_path(text: &[u8]) -> bool
    ensures { result ≡ list_all in_path text.now }
{
    let mut rest = text;
    while let [a, b, c, d, more @ ..] = rest {
        if !(is_path_byte(*a) & is_path_byte(*b) & is_path_byte(*c) & is_path_byte(*d)) {
            return false;
        }
        rest = more;
    }
    all_in_path_by_octets(rest)
}

/// The same, one octet at a time, for the last few.
fn all_in_path_by_octets(text: &[u8]) -> bool
    ensures { result ≡ list_all in_path text.now }
{
    text.iter().all(|b| is_path_byte(*b))
}

/// Whether a plain key may have the octet in its host.
#[inline(always)]
fn is_host_byte(b: u8) -> bool
    ensures { result ≡ in_host b }
{
    CLASS[b as usize] & HOST != 0
}

/// Whether a plain key may have the octet behind its host.
#[inline(always)]
fn is_path_byte(b: u8) -> bool
    ensures { result ≡ in_path b }
{
    CLASS[b as usize] & PATH != 0
}
