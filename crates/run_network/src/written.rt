//! What is written of a response to a member.
ghost use Rattle.std.specs.Prelude.{◌≡◌, ◌↔◌, IsTrue};
ghost use Rattle.run_rules.specs.Sent.{text_of};
ghost use Rattle.run_network.specs.Written.{written_text};

use http_messages::{Answer, Field};
use node_copies::same_fields;
use node_rules::Served;

/// What is written of a response. Two responses with the same parts count as the same.
///
/// A contract sees it by `written_text`.
#[derive(Clone, Copy)]
pub(crate) struct Written<'a> {
    pub status: u16,
    pub fields: &'a [Field],
    /// In seconds.
    pub age: Option<u64>,
    pub stamp: Option<u32>,
    pub body: &'a [u8],
}

impl<'a> Written<'a> {
    /// What is written of a response that was received.
    pub(crate) fn of(answer: &'a Answer) -> Written<'a>
        ensures { written_text result ≡ answer.now }
    {
        Written {
            status: answer.status(),
            fields: answer.fields(),
            age: age_of(answer),
            stamp: answer.stamp(),
            body: answer.body(),
        }
    }

    /// What is written to a member for what is served.
    pub(crate) fn of_served(served: &'a Served<()>) -> Written<'a>
        ensures { written_text result ≡ text_of served.now }
    {
        match served {
            Served::Copy { copy, age } => Written {
                status: copy.answer.status(),
                fields: copy.answer.fields(),
                age: Some(*age),
                stamp: Some(copy.stamp),
                body: copy.answer.body(),
            },
            Served::Status(status) => Written {
                status: *status,
                fields: &[],
                age: None,
                stamp: None,
                body: &[],
            },
        }
    }

    /// Whether two are the same, octet by octet.
    pub(crate) fn is(&self, other: &Written<'_>) -> bool
        ensures { IsTrue result ↔ (written_text self.now ≡ written_text other.now) }
    {
        self.status == other.status
            && self.age == other.age
            && self.stamp == other.stamp
            && same_fields(self.fields, other.fields)
            && self.body == other.body
    }
}

/// The age of a response in seconds, if it has one.
fn age_of(answer: &Answer) -> Option<u64>
    ensures { result ≡ answer.now.age }
{
    match answer.age() {
        Some(age) => Some(u64::from(age)),
        None => None,
    }
}
