//! Numbers in decimal, without a sign and without leading zeros.
ghost use Rattle.std.specs.Prelude.{◌≡◌, ◌≤◌, ◌^◌, IsTrue, length};
ghost use Rattle.std.specs.List.{list_all};
ghost use Rattle.std.specs.Char.{is_ascii_digit};
ghost use Rattle.std.specs.Str.Parse.{digits_value};
ghost use Rattle.values_lines.specs.Words.{is_decimal as may_be_decimal, decimal_below};

/// The number of digits of the greatest number of 64 bits.
const MOST_DIGITS: usize = 20;

/// The number of 64 bits that the text spells in decimal, without a sign and without leading zeros.
/// `None` for any other text.
pub fn decimal_u64(text: &[u8]) -> Option<u64>
    ensures { result ≡ decimal_below (2 ^ 64) text.now }
{
    if !is_decimal(text) {
        return None;
    }
    let value = value_of(text);
    if value <= 0xffff_ffff_ffff_ffff {
        Some(value as u64)
    } else {
        None
    }
}

/// The number of 32 bits that the text spells in decimal, without a sign and without leading zeros.
/// `None` for any other text.
pub fn decimal_u32(text: &[u8]) -> Option<u32>
    ensures { result ≡ decimal_below (2 ^ 32) text.now }
{
    match decimal_u64(text) {
        Some(number) if number <= 0xffff_ffff => Some(number as u32),
        _ => None,
    }
}

/// The number of 16 bits that the text spells in decimal, without a sign and without leading zeros.
/// `None` for any other text.
pub fn decimal_u16(text: &[u8]) -> Option<u16>
    ensures { result ≡ decimal_below (2 ^ 16) text.now }
{
    match decimal_u64(text) {
        Some(number) if number <= 0xffff => Some(number as u16),
        _ => None,
    }
}

/// The number of 8 bits that the text spells in decimal, without a sign and without leading zeros.
/// `None` for any other text.
pub fn decimal_u8(text: &[u8]) -> Option<u8>
    ensures { result ≡ decimal_below (2 ^ 8) text.now }
{
    match decimal_u64(text) {
        Some(number) if number <= 0xff => Some(number as u8),
        _ => None,
    }
}

/// Whether the text is 1 to 20 digits without leading zeros.
fn is_decimal(text: &[u8]) -> bool
    ensures { result ≡ may_be_decimal text.now }
{
    if !all_digits(text) || text.is_empty() || text.len() > MOST_DIGITS {
        return false;
    }
    text.len() == 1 || text[0] != b'0'
}

/// Whether each octet is a decimal digit.
fn all_digits(text: &[u8]) -> bool
    ensures { result ≡ list_all is_ascii_digit text.now }
{
    text.iter().all(|octet| b'0' <= *octet && *octet <= b'9')
}

/// The number that at most 20 digits spell.
#[tactic(auto, using(crate::proofs::Digits::few_digits, crate::proofs::Digits::next_digit))]
fn value_of(digits: &[u8]) -> u128
    requires few { length digits.now ≤ 20 }
    requires decimal { IsTrue (list_all is_ascii_digit digits.now) }
    ensures { result ≡ digits_value 10 digits.now }
{
    let mut number = 0u128;
    for digit in digits {
        number = number * 10 + u128::from(*digit - b'0');
    }
    number
}
