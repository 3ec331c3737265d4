//! The request line, and requests of a later minor version of HTTP/1.
ghost use Rattle.std.specs.Prelude.{◌≡◌, ◌≤◌, length};
ghost use Rattle.http_reading.specs.Version as spec;

/// The digit of the minor version that is known.
const KNOWN: u8 = b'1';

/// Has a request of HTTP/1.2 to HTTP/1.9 be read as one of HTTP/1.1, the highest minor version that
/// is known here (RFC 9110, sections 2.5 and 6.2): changes the digit at the end of its request line
/// to 1. `octets` begin with the request, of which the request line has come. Any other octets stay
/// as they are.
pub fn lower_version(octets: &mut [u8])
    ensures { octets.new ≡ spec.as_known octets.old }
{
    let end = line_end(octets);
    if names_later(octets, end) {
        octets[end - 1] = KNOWN;
    }
}

/// Whether the octets end in a request line, behind its first space. Empty lines may come before
/// it.
pub(crate) fn is_in_target(octets: &[u8]) -> bool
    ensures { result ≡ spec.is_in_target octets.now }
{
    line_end(octets) == octets.len() && has_space(octets)
}

/// Whether one of the octets is a space.
fn has_space(octets: &[u8]) -> bool
    ensures { result ≡ spec.has_space octets.now }
{
    octets.iter().any(|octet| *octet == b' ')
}

/// The index behind the request line, which has neither CR nor LF. Empty lines may come before it.
fn line_end(octets: &[u8]) -> usize
    ensures value { result ≡ spec.line_end octets.now }
    ensures within { result ≤ length octets.now }
{
    let blank = line_ends(octets);
    blank + line_length(&octets[blank..])
}

/// The number of octets at the front that are CR or LF.
pub(crate) fn line_ends(octets: &[u8]) -> usize
    ensures value { result ≡ spec.blank_length octets.now }
    ensures within { result ≤ length octets.now }
{
    octets
        .iter()
        .take_while(|octet| is_of_line_end(**octet))
        .count()
}

/// The number of octets before the first CR or LF.
fn line_length(octets: &[u8]) -> usize
    ensures value { result ≡ spec.line_length octets.now }
    ensures within { result ≤ length octets.now }
{
    octets
        .iter()
        .take_while(|octet| !is_of_line_end(**octet))
        .count()
}

/// Whether the octet is CR or LF.
fn is_of_line_end(octet: u8) -> bool
    ensures { result ≡ spec.is_of_line_end octet }
{
    octet == b'\r' || octet == b'\n'
}

/// Whether a space, `HTTP/1.` and a digit of 2 to 9 stand before this index.
fn names_later(octets: &[u8], end: usize) -> bool
    requires { end ≤ length octets.now }
    ensures { result ≡ spec.names_later octets.now end }
{
    end >= 9
        && &octets[end - 9..end - 1] == b" HTTP/1.".as_slice()
        && b'2' <= octets[end - 1]
        && octets[end - 1] <= b'9'
}
