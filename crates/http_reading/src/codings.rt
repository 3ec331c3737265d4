//! The transfer codings that fields list (RFC 9112, section 6.1).

ghost use Rattle.std.specs.Prelude.{◌≡◌, [], ◌∷◌};
ghost use Rattle.http_lists.specs.Left.{members_left};
ghost use Rattle.http_lists.specs.Members.{members};
ghost use Rattle.http_reading.specs.Left.{values_left};
ghost use Rattle.http_reading.specs.Framing as spec;

use crate::fields::Values;
use http_lists::{members_of, trim};

/// What lists of transfer codings name.
#[derive(Clone, Copy, Debug, PartialEq, Eq)]
pub(crate) enum Codings {
    /// No coding.
    Nothing,
    /// `chunked`, once, and no other coding.
    OneChunked,
    /// Anything else.
    Other,
}

impl Codings {
    /// What these codings and those behind them are together.
    fn and(self, others: Codings) -> Codings
        ensures { result ≡ spec.both self others }
    {
        match (self, others) {
            (Codings::Nothing, _) => others,
            (_, Codings::Nothing) => self,
            _ => Codings::Other,
        }
    }
}

/// What the values that are left name together (RFC 9110, section 5.3).
#[tactic(auto, using(crate::proofs::CodingLemmas::next_value, crate::proofs::CodingLemmas::both_last))]
pub(crate) fn codings_left(mut values: Values<'_, '_>) -> Codings
    ensures { result ≡ spec.named_by (spec.codings (values_left values.entry)) }
{
    let mut named = Codings::Nothing;
    while let Some(value) = values.next() {
        named = named.and(codings_in(value));
    }
    named
}

/// What the members of a value name together.
#[tactic(auto, using(crate::proofs::CodingLemmas::next_member, crate::proofs::CodingLemmas::both_last))]
fn codings_in(value: &[u8]) -> Codings
    ensures { result ≡ spec.named_by (spec.codings_of (members value.now)) }
{
    let mut named = Codings::Nothing;
    let mut left = members_of(value);
    while let Some(member) = left.next() {
        named = named.and(coding_in(member));
    }
    named
}

/// What a member of a list names. An empty one names nothing (RFC 9110, section 5.6.1.2).
fn coding_in(member: &[u8]) -> Codings
    ensures { result ≡ spec.named_by (spec.codings_of (member.now ∷ [])) }
{
    let coding = trim(member);
    if coding.is_empty() {
        Codings::Nothing
    } else if coding.eq_ignore_ascii_case(b"chunked") {
        Codings::OneChunked
    } else {
        Codings::Other
    }
}
