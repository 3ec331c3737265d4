//! Responses of a later minor version of HTTP/1.
ghost use Rattle.std.specs.Prelude.{◌≡◌, ◌+◌, ◌≤◌, length};
ghost use Rattle.http_reading.specs.AnswerVersions as spec;

use crate::version::line_ends;

/// The digit of the minor version that is known.
const KNOWN: u8 = b'1';

/// Has a response of HTTP/1.2 to HTTP/1.9 be read as one of HTTP/1.1, the highest minor version
/// that is known here (RFC 9110, sections 2.5 and 6.2): changes the digit of its version to 1. The
/// head of each interim response before it (section 15.2) has a version of its own, which is
/// changed likewise. `octets` begin with the response, of which any part may have come; where more
/// come, they are to be given again, with those. Any other octets stay as they are.
#[tactic(auto, using(crate::proofs::Heads::next_head))]
pub fn lower_versions(octets: &mut [u8])
    ensures { octets.new ≡ spec.as_known octets.old }
{
    let mut start = 0;
    let mut heads = octets.len();
    while heads > 0 {
        heads -= 1;
        let digit = digit_of(octets, start);
        if names_later(octets, digit) {
            octets[digit] = KNOWN;
        }
        if !is_interim(octets, digit) {
            return;
        }
        start = head_end(octets, digit);
    }
}

/// The index of the digit of the minor version in the head that begins at `start`. It may be beyond
/// the octets.
fn digit_of(octets: &[u8], start: usize) -> usize
    requires { start ≤ length octets.now }
    ensures value { result ≡ spec.digit_of octets.now start }
    ensures within { result ≤ length octets.now + 7 }
    ensures behind { 7 ≤ result }
{
    start + line_ends(&octets[start..]) + 7
}

/// Whether a digit of 2 to 9 stands at this index, behind `HTTP/1.`.
fn names_later(octets: &[u8], digit: usize) -> bool
    requires { 7 ≤ digit }
    ensures value { result ≡ spec.names_later octets.now digit }
{
    digit < octets.len()
        && &octets[digit - 7..digit] == b"HTTP/1.".as_slice()
        && b'2' <= octets[digit]
        && octets[digit] <= b'9'
}

/// Whether the status behind the digit of a version is that of an interim response. 101 is not: it
/// would change the protocol.
fn is_interim(octets: &[u8], digit: usize) -> bool
    requires { digit ≤ length octets.now + 7 }
    ensures value { result ≡ spec.is_interim octets.now digit }
{
    octets.len() >= digit + 5
        && &octets[digit + 1..digit + 3] == b" 1".as_slice()
        && &octets[digit + 3..digit + 5] != b"01".as_slice()
}

/// The index of the empty line that ends the head with the digit of its version at this index; the
/// number of octets, where it has not come.
fn head_end(octets: &[u8], digit: usize) -> usize
    requires { digit ≤ length octets.now }
    ensures value { result ≡ spec.head_end octets.now digit }
    ensures within { result ≤ length octets.now }
{
    octets.len() - from_empty_line(&octets[digit..]).len()
}

/// The first empty line of a text that begins within a line, and what stands behind it. It is empty
/// where no such line has come.
#[tactic(auto, using(crate::proofs::Heads::next_octet))]
fn from_empty_line(text: &[u8]) -> &[u8]
    ensures value { result.now ≡ spec.from_empty_line text.now }
    ensures within { length result.now ≤ length text.now }
{
    let mut rest = text;
    while let Some((octet, behind)) = rest.split_first() {
        if *octet == b'\n' && begins_empty(behind) {
            return behind;
        }
        rest = behind;
    }
    rest
}

/// Whether an empty line stands first.
fn begins_empty(text: &[u8]) -> bool
    ensures { result ≡ spec.begins_empty text.now }
{
    match text {
        [b'\n', ..] => true,
        [b'\r', b'\n', ..] => true,
        _ => false,
    }
}
