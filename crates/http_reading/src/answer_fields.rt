//! The age and the purge stamp of a response, which are not among its kept fields.

ghost use Rattle.std.specs.Prelude.{◌≡◌};
ghost use Rattle.http_reading.specs.AnswerFields as spec;
ghost use Rattle.http_reading.specs.Fields.{fields_of};

use crate::decimal::{number_up_to, plain_number};
use crate::fields::{first_named, only_named};
use http_lists::{member_length, trim};
use httparse::spans::HeaderSpan;

/// The greatest age, in seconds: 2^31 (RFC 9111, section 1.2.2).
const GREATEST_AGE: u64 = 2_147_483_648;

/// The age of a response in seconds, at most 2,147,483,648 (RFC 9111, section 5.1): the number of
/// the first member of its first `age` field. A greater number counts as 2,147,483,648 (RFC 9111,
/// section 1.2.2). `None`: there is no `age` field, or that member is not one or more digits and
/// nothing else.
pub fn age(window: &[u8], headers: &[HeaderSpan]) -> Option<u32>
    ensures { result ≡ spec.age (fields_of window.now headers.now) }
{
    let value = first_named(window, headers, b"age")?;
    let seconds = number_up_to(GREATEST_AGE, first_member(value))?;
    Some(seconds as u32)
}

/// The first member of a value, without blanks around it.
fn first_member(value: &[u8]) -> &[u8]
    ensures { result.now ≡ spec.first_member value.now }
{
    trim(&value[..member_length(value)])
}

/// The purge stamp of a response: the number of its only `x-purge-stamp` field, 0 to 4,294,967,295
/// in decimal without leading zeros. `None`: there is no such field, there are several, or its
/// value is anything else.
pub fn stamp(window: &[u8], headers: &[HeaderSpan]) -> Option<u32>
    ensures { result ≡ spec.stamp (fields_of window.now headers.now) }
{
    let value = only_named(window, headers, b"x-purge-stamp")?;
    plain_number(0, u32::MAX, value)
}
