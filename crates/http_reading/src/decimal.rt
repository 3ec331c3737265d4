//! Numbers in decimal, as field values write them.

ghost use Rattle.std.specs.Prelude.{◌≡◌};
ghost use Rattle.http_reading.specs.Decimal as spec;

/// The number that a text of digits writes, or the cap where the number is greater. `None`: the
/// text is not one or more digits and nothing else.
pub(crate) fn number_up_to(cap: u64, text: &[u8]) -> Option<u64>
    ensures { result ≡ spec.number_up_to cap text.now }
{
    if text.is_empty() {
        return None;
    }
    let mut number = 0_u64;
    for octet in text {
        if !octet.is_ascii_digit() {
            return None;
        }
        let digit = u64::from(*octet - b'0');
        number = cap.min(number.saturating_mul(10).saturating_add(digit));
    }
    Some(number)
}

/// The number that a text of digits without leading zeros writes. `None`: the text is not that, or
/// the number is not from `least` to `most`.
pub(crate) fn plain_number(least: u32, most: u32, text: &[u8]) -> Option<u32>
    ensures { result ≡ spec.plain_number least most text.now }
{
    if has_leading_zero(text) {
        return None;
    }
    let number = number_up_to(1 << 32, text)?;
    if u64::from(least) <= number && number <= u64::from(most) {
        Some(number as u32)
    } else {
        None
    }
}

/// Whether a zero stands first and more octets follow.
fn has_leading_zero(text: &[u8]) -> bool
    ensures { result ≡ spec.has_leading_zero text.now }
{
    text.len() > 1 && text[0] == b'0'
}
