//! Cutting a field value into its members (RFC 9110, section 5.6.1).

ghost use Rattle.std.specs.Prelude.{◌≡◌, ◌+◌, ◌≤◌, [], ◌∷◌, length, take, drop, nat_lt};
ghost use Rattle.std.specs.Prelude.{if◌then◌else◌};
ghost use Rattle.http_lists.specs.Cut.{is_well_quoted as is_well_quoted_list, is_outside};
ghost use Rattle.http_lists.specs.Cut.{is_stray as is_stray_octet, is_lead as is_lead_octet};
ghost use Rattle.http_lists.specs.Left.{members_left};
ghost use Rattle.http_lists.specs.Members.{members, quoting_after, ends_member as is_end};

use crate::blanks::is_blank;

/// Whether an octet of a field value stands in a quoted string (RFC 9110, section 5.6.4).
#[derive(Clone, Copy, Debug, PartialEq, Eq)]
pub(crate) enum Quoting {
    /// Outside quoted strings.
    Outside,
    /// In a quoted string.
    Inside,
    /// In a quoted string, after a backslash, which makes the octet stand for itself.
    Escaped,
}

impl Quoting {
    /// The state of the octet after this one.
    fn after(self, octet: u8) -> Quoting
        ensures { result ≡ quoting_after self octet }
    {
        match (self, octet) {
            (Quoting::Outside, b'"') => Quoting::Inside,
            (Quoting::Inside, b'"') => Quoting::Outside,
            (Quoting::Inside, b'\\') => Quoting::Escaped,
            (Quoting::Escaped, _) => Quoting::Inside,
            (same, _) => same,
        }
    }

    /// Whether it stands in no quoted string.
    fn is_outside(self) -> bool
        ensures { result ≡ is_outside self }
    {
        self == Quoting::Outside
    }
}

/// Whether each quoted string of a field value is closed, and begins where one may: at the start of
/// a member or of a parameter's value, behind a comma, a semicolon or `=`, with blanks between or
/// not (RFC 9110, sections 5.6.4 and 5.6.6). Any other may hide the members behind its first quote.
pub fn is_well_quoted(value: &[u8]) -> bool
    ensures { result ≡ is_well_quoted_list value.now }
{
    let mut state = Quoting::Outside;
    // (the value begins with a member)
    let mut lead = b',';
    for octet in value {
        if is_stray(state, lead, *octet) {
            return false;
        }
        state = state.after(*octet);
        if !is_blank(*octet) {
            lead = *octet;
        }
    }
    state.is_outside()
}

/// Whether the octet opens a quoted string where none may begin, given the last octet before it
/// that is no blank.
fn is_stray(quoting: Quoting, lead: u8, octet: u8) -> bool
    ensures { result ≡ is_stray_octet quoting lead octet }
{
    quoting == Quoting::Outside && octet == b'"' && !is_lead(lead)
}

/// Whether a quoted string may begin behind this octet.
fn is_lead(octet: u8) -> bool
    ensures { result ≡ is_lead_octet octet }
{
    octet == b',' || octet == b';' || octet == b'='
}

/// Whether a member ends at this octet: at a comma outside quoted strings.
fn ends_member(quoting: Quoting, octet: u8) -> bool
    ensures { result ≡ is_end quoting octet }
{
    quoting == Quoting::Outside && octet == b','
}

/// The number of octets of the first member of a field value: those before the first comma outside
/// quoted strings, or all where there is no such comma (RFC 9110, sections 5.6.1 and 5.6.4). The
/// other members are those of the text after that comma.
pub fn member_length(text: &[u8]) -> usize
    ensures within { result ≤ length text.now }
    ensures cut { members text.now ≡ take result text.now
        ∷ (if nat_lt result (length text.now) then members (drop (result + 1) text.now) else []) }
{
    let mut quoting = Quoting::Outside;
    for (index, octet) in text.iter().enumerate() {
        if ends_member(quoting, *octet) {
            return index;
        }
        quoting = quoting.after(*octet);
    }
    text.len()
}

/// The members of a field value, in order, with the blanks around them (RFC 9110, section 5.6.1).
/// An empty value has one member, which is empty. It does not allocate.
pub fn members_of(value: &[u8]) -> Members<'_>
    ensures { members_left result ≡ members value.now }
{
    Members { text: Some(value) }
}

/// An iterator over the members of a field value. Contracts see the members that it has still to
/// give (`members_left` of `specs/Left`).
#[derive(Clone, Copy, Debug)]
pub struct Members<'a> {
    text: Option<&'a [u8]>,
}

impl<'a> Iterator for Members<'a> {
    ghost use Rattle.std.specs.Iterator.{YieldsFirstBy, item_count};
    ghost use Rattle.http_lists.specs.Left.{members_left};

    type Item = &'a [u8];

    ghost next_gives = { YieldsFirstBy (λ member. member.now) members_left };

    ghost remaining = { item_count members_left };

    fn next(&mut self) -> Option<&'a [u8]> {
        let text = self.text?;
        let end = member_length(text);
        self.text = if end < text.len() {
            Some(&text[end + 1..])
        } else {
            None
        };
        Some(&text[..end])
    }
}
