//! Removing spaces and tabs at the ends of a text (RFC 9110, section 5.6.3).

ghost use Rattle.std.specs.Prelude.{◌≡◌, not, position};
ghost use Rattle.http_lists.specs.Blanks as spec;

/// Whether the octet is a space or a tab.
pub(crate) fn is_blank(octet: u8) -> bool
    ensures { result ≡ spec.is_blank octet }
{
    octet == b' ' || octet == b'\t'
}

/// The text without spaces and tabs at both ends (RFC 9110, section 5.6.3). A text of blanks alone
/// gives the empty text.
pub fn trim(text: &[u8]) -> &[u8]
    ensures { result.now ≡ spec.trim text.now }
{
    trim_end(trim_front(text))
}

/// The text without blanks at its start.
fn trim_front(text: &[u8]) -> &[u8]
    ensures { result.now ≡ spec.trim_front text.now }
{
    match first_text(text) {
        Some(start) => &text[start..],
        None => &text[text.len()..],
    }
}

/// The index of the first octet that is not a blank. `None`: there is none.
fn first_text(text: &[u8]) -> Option<usize>
    ensures { result ≡ position (λ octet. not (spec.is_blank octet)) text.now }
{
    text.iter().position(|octet| !is_blank(*octet))
}

/// The text without blanks at its end.
fn trim_end(text: &[u8]) -> &[u8]
    ensures { result.now ≡ spec.trim_end text.now }
{
    let mut end = text.len();
    while end > 0 && is_blank(text[end - 1]) {
        end -= 1;
    }
    &text[..end]
}
