ghost use Rattle.std.specs.Prelude.{◌≡◌, ◌+◌, ◌-◌, ◌≤◌, Ok, Err, Some, None, not, List, [], ◌∷◌};
ghost use Rattle.std.specs.Prelude.{◌++◌, length, take, IsTrue, IfErr, MatchOption, MatchResult};
ghost use Rattle.std.specs.Prelude.{position, codes, option_copied, option_to_list, if◌then◌else◌};
ghost use Rattle.std.specs.List.{list_all, position_or_len, suffix_len};
ghost use Rattle.std.specs.Option.{option_map};
ghost use Rattle.std.specs.Char.{is_ascii_digit};
ghost use Rattle.std.specs.Str.Parse.{digits_value};
ghost use Rattle.htcp_wire.specs.Numbers.{number_in_text, number_of_values, line_name};
ghost use Rattle.htcp_wire.specs.Numbers.{ends_line as is_line_feed, is_blank as is_blank_octet};
ghost use Rattle.htcp_wire.specs.Numbers.{is_colon, is_number, trim_front as without_front_blanks};
ghost use Rattle.htcp_wire.specs.Numbers.{trim_end as without_end_blanks};
ghost use Rattle.htcp_wire.specs.Numbers.{is_same_name as same_name, value_in as value_of_line};

use crate::HtcpFault;

/// The private header line in which a number is sought.
#[derive(Clone, Copy, Debug, PartialEq, Eq, Hash)]
pub enum HeaderKind {
    /// `X-Purge-Number: n` in REQ-HDRS of a CLR: the number of a purge.
    PurgeNumber,
    /// `X-Purge-Stamp: n` in CACHE-HDRS of a response to TST: the stamp of a copy.
    PurgeStamp,
    /// `X-Purge-Base: n` in REQ-HDRS of a CLR: the number under which a node is admitted.
    PurgeBase,
}

impl HeaderKind {
    /// The name of the line.
    fn line_name(self) -> &'static [u8]
        ensures { result.now ≡ line_name self }
    {
        match self {
            HeaderKind::PurgeNumber => b"X-Purge-Number",
            HeaderKind::PurgeStamp => b"X-Purge-Stamp",
            HeaderKind::PurgeBase => b"X-Purge-Base",
        }
    }
}

/// The number in the one line of its kind, 0 to 4294967295 in decimal, or `None` if there is no
/// such line.
///
/// Lines end with CR LF; what follows the last CR LF is a line too. The name may have any case of
/// letters, and spaces and tabs may stand round the number.
///
/// The only fault is `BadNumber`: the number is not decimal, has a leading zero or is too great, or
/// there are two such lines. Allocates nothing.
pub fn number_in(text: &[u8], kind: HeaderKind) -> Result<Option<u32>, HtcpFault>
    ensures { result ≡ number_in_text text.now kind }
{
    let name = kind.line_name();
    let mut found = None;
    let mut start = 0;
    for end in 0..text.len() {
        if ends_line(&text[start..end], text[end]) {
            found = at_most_one(found, value_in(name, &text[start..end - 1]))?;
            start = end + 1;
        }
    }
    number_of_value(at_most_one(found, value_in(name, &text[start..]))?)
}

/// The number of the value, if there is a value.
fn number_of_value(value: Option<&[u8]>) -> Result<Option<u32>, HtcpFault>
    ensures { result ≡ number_of_values (option_to_list (option_copied value.entry)) }
{
    match value {
        None => Ok(None),
        Some(value) => match number_of(value) {
            None => Err(HtcpFault::BadNumber),
            number => Ok(number),
        },
    }
}

/// Whether the octet is the LF of a CR LF. `line` is what is before it in its line.
fn ends_line(line: &[u8], octet: u8) -> bool
    ensures { result ≡ is_line_feed line.now octet }
{
    octet == b'\n' && !line.is_empty() && line[line.len() - 1] == b'\r'
}

/// The value of whichever of two has one. `BadNumber` if both have.
fn at_most_one<'a>(
    first: Option<&'a [u8]>,
    second: Option<&'a [u8]>,
) -> Result<Option<&'a [u8]>, HtcpFault>
    ensures { MatchResult result
        (λ found. option_to_list (option_copied found) ≡ option_to_list (option_copied first.entry)
        ++ option_to_list (option_copied second.entry))
        (λ fault. (fault ≡ HtcpFault.BadNumber)
        × (length (option_to_list (option_copied first.entry)
        ++ option_to_list (option_copied second.entry)) ≡ 2)) }
{
    match (first, second) {
        (found, None) | (None, found) => Ok(found),
        _ => Err(HtcpFault::BadNumber),
    }
}

/// The value of the line if it has this name, without spaces and tabs at its ends.
#[tactic(auto, unfolding(crate::specs::Numbers::value_in))]
fn value_in<'a>(name: &[u8], line: &'a [u8]) -> Option<&'a [u8]>
    ensures { option_copied result ≡ value_of_line name.now line.now }
{
    let colon = first_colon(line)?;
    if is_same_name(&line[..colon], name) {
        Some(trim_end(trim_front(&line[colon + 1..])))
    } else {
        None
    }
}

/// Whether two names are the same in any case of letters.
fn is_same_name(name: &[u8], other: &[u8]) -> bool
    ensures { result ≡ same_name name.now other.now }
{
    name.eq_ignore_ascii_case(other)
}

/// The index of the first colon.
fn first_colon(line: &[u8]) -> Option<usize>
    ensures { result ≡ position is_colon line.now }
{
    line.iter().position(|octet| *octet == b':')
}

/// Whether the octet is a space or a tab.
fn is_blank(octet: u8) -> bool
    ensures { result ≡ is_blank_octet octet }
{
    octet == b' ' || octet == b'\t'
}

/// The value without blanks at its front.
fn trim_front(value: &[u8]) -> &[u8]
    ensures { result.now ≡ without_front_blanks value.now }
{
    match first_text(value) {
        Some(start) => &value[start..],
        None => &value[value.len()..],
    }
}

/// The index of the first octet that is no blank.
fn first_text(value: &[u8]) -> Option<usize>
    ensures { result ≡ position (λ octet. not (is_blank_octet octet)) value.now }
{
    value.iter().position(|octet| !is_blank(*octet))
}

/// The value without blanks at its end.
fn trim_end(value: &[u8]) -> &[u8]
    ensures { result.now ≡ without_end_blanks value.now }
{
    let mut end = value.len();
    while end > 0 && is_blank(value[end - 1]) {
        end -= 1;
    }
    &value[..end]
}

/// The number that the value spells in decimal without leading zeros.
fn number_of(value: &[u8]) -> Option<u32>
    ensures { result ≡ (if is_number value.now then Some (digits_value 10 value.now) else None) }
{
    let has_leading_zero = value.len() != 1 && value.first() == Some(&b'0');
    if value.is_empty() || value.len() > 10 || has_leading_zero || !all_digits(value) {
        return None;
    }
    u32::try_from(few_digits(value)).ok()
}

/// Whether each octet is a decimal digit.
fn all_digits(value: &[u8]) -> bool
    ensures { result ≡ list_all is_ascii_digit value.now }
{
    value.iter().all(|octet| octet.is_ascii_digit())
}

/// The number that at most ten decimal digits spell.
#[tactic(auto, using(crate::proofs::Digits::few_digits, crate::proofs::Digits::next_digit))]
fn few_digits(digits: &[u8]) -> u64
    requires few { length digits.now ≤ 10 }
    requires decimal { IsTrue (list_all is_ascii_digit digits.now) }
    ensures { result ≡ digits_value 10 digits.now }
{
    let mut number = 0u64;
    for digit in digits {
        number = number * 10 + u64::from(*digit - b'0');
    }
    number
}
