//! The directives of a response's `cache-control` fields (RFC 9111, section 5.2).

ghost use Rattle.std.specs.Prelude.{◌≡◌, [], position, bytes_eq, codes, Some, None, MatchOption};
ghost use Rattle.std.specs.Prelude.{option_copied, if◌then◌else◌};
ghost use Rattle.reuse_rules.specs.Directives as spec;
ghost use Rattle.reuse_rules.specs.Directives.{directive_text};
ghost use Rattle.reuse_rules.specs.Left.{directives_left};

use http_lists::{member_length, trim};
use http_messages::{Answer, Field};

/// The most seconds that a directive gives: 2^31 (RFC 9111, section 1.2.2).
const MOST_SECONDS: u64 = 2_147_483_648;

/// A directive of a `cache-control` field.
#[derive(Clone, Copy, Debug)]
pub(crate) struct Directive<'a> {
    /// Its name, in the case in which it came.
    pub name: &'a [u8],
    /// What follows its `=`, with double quotes where they came. Empty: there is no `=`, or
    /// nothing follows it.
    pub value: &'a [u8],
}

impl<'a> Directive<'a> {
    /// The directive of a member of a field value: a name, and after the first `=` a value, with
    /// blanks around both removed.
    fn read(member: &'a [u8]) -> Directive<'a>
        ensures { directive_text result ≡ spec.directive_of member.now }
    {
        match first_equals_sign(member) {
            Some(end) => Directive {
                name: trim(&member[..end]),
                value: trim(&member[end + 1..]),
            },
            None => Directive {
                name: trim(member),
                value: trim(&member[member.len()..]),
            },
        }
    }

    /// Whether it has this name, ignoring case.
    pub(crate) fn is_called(self, name: &[u8]) -> bool
        ensures { result ≡ spec.is_called name.now (directive_text self.entry) }
    {
        self.name.eq_ignore_ascii_case(name)
    }

    /// The seconds that its value gives, at most 2^31. A value that is empty or not all digits
    /// gives 0.
    pub(crate) fn seconds(self) -> u64
        ensures { result ≡ spec.seconds (directive_text self.entry) }
    {
        seconds_of(unquoted(self.value))
    }
}

/// The index of the first `=`.
fn first_equals_sign(member: &[u8]) -> Option<usize>
    ensures { result ≡ position spec.is_equals_sign member.now }
{
    member.iter().position(|octet| *octet == b'=')
}

/// The value without the double quotes around it, if it has both.
fn unquoted(value: &[u8]) -> &[u8]
    ensures { result.now ≡ spec.unquoted value.now }
{
    match value {
        [b'"', inner @ .., b'"'] => inner,
        _ => value,
    }
}

/// The seconds that a text of digits gives, at most 2^31. A text that is empty or not all digits
/// gives 0.
fn seconds_of(text: &[u8]) -> u64
    ensures { result ≡ spec.seconds_of text.now }
{
    let mut seconds = 0;
    for octet in text {
        if !octet.is_ascii_digit() {
            return 0;
        }
        seconds = MOST_SECONDS.min(seconds * 10 + u64::from(*octet - b'0'));
    }
    seconds
}

/// The directives of all `cache-control` fields of a response, in order.
pub(crate) fn directives_of(answer: &Answer) -> Directives<'_>
    ensures { directives_left result ≡ spec.directives answer.now }
{
    Directives {
        fields: answer.fields(),
        text: None,
    }
}

/// An iterator over directives: those of the rest of one field, then those of the fields after it.
/// Contracts see the directives that it has still to give (`directives_left` of `specs/Left`).
#[derive(Clone, Copy)]
pub(crate) struct Directives<'a> {
    fields: &'a [Field],
    text: Option<&'a [u8]>,
}

impl<'a> Directives<'a> {
    /// The text that is left of the current field; where none is left, moves on to the next
    /// `cache-control` field. `None`: there is no further field.
    fn text_left(&mut self) -> Option<&'a [u8]>
        ensures same { directives_left self.new ≡ directives_left self.old }
        ensures text { option_copied result ≡ option_copied self.new.text }
        ensures end { MatchOption result (self.new.fields.now ≡ []) (λ _. Unit {0}) }
    {
        while self.text.is_none() {
            let (field, others) = self.fields.split_first()?;
            self.fields = others;
            self.text = text_of(field);
        }
        self.text
    }
}

/// The value of the field if it is a `cache-control` field.
fn text_of(field: &Field) -> Option<&[u8]>
    ensures { option_copied result
        ≡ (if bytes_eq field.now.name (codes "cache-control")
        then Some field.now.value.bytes else None) }
{
    if field.name.as_str() == "cache-control" {
        Some(field.value.as_bytes())
    } else {
        None
    }
}

impl<'a> Iterator for Directives<'a> {
    ghost use Rattle.std.specs.Iterator.{YieldsFirstBy, item_count};
    ghost use Rattle.reuse_rules.specs.Directives.{directive_text};
    ghost use Rattle.reuse_rules.specs.Left.{directives_left};

    type Item = Directive<'a>;

    ghost next_gives = { YieldsFirstBy directive_text directives_left };

    ghost remaining = { item_count directives_left };

    fn next(&mut self) -> Option<Directive<'a>> {
        let text = self.text_left()?;
        let end = member_length(text);
        self.text = if end < text.len() {
            Some(&text[end + 1..])
        } else {
            None
        };
        Some(Directive::read(&text[..end]))
    }
}
