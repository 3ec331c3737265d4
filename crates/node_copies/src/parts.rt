//! Compares keys, requests, responses and copies.
ghost use Rattle.std.specs.Prelude.{◌≡◌, ◌↔◌, IsTrue, map};
ghost use Rattle.http_messages.specs.Field.{field_text};

use http_messages::{Answer, Ask, Field};
use object_store::WebCopy;
use url_key::Key;
use values_plain::Octets;

/// Whether two texts are the same octets.
pub(crate) fn same_octets(one: &Octets, other: &Octets) -> bool
    ensures { IsTrue result ↔ (one.now ≡ other.now) }
{
    one.as_slice() == other.as_slice()
}

/// Whether two keys are the same URL.
pub fn same_key(one: &Key, other: &Key) -> bool
    ensures { IsTrue result ↔ (one.now ≡ other.now) }
{
    one.text() == other.text()
}

/// Whether two requests are equal.
pub fn same_ask(one: &Ask, other: &Ask) -> bool
    ensures { IsTrue result ↔ (one.now ≡ other.now) }
{
    same_key(&one.key, &other.key)
        && one.only_if_cached == other.only_if_cached
        && one.no_cache == other.no_cache
        && one.member == other.member
}

/// Whether two fields have the same name and the same value.
fn same_field(one: &Field, other: &Field) -> bool
    ensures { IsTrue result ↔ (field_text one.now ≡ field_text other.now) }
{
    one.name.as_str().as_bytes() == other.name.as_str().as_bytes()
        && one.value.as_bytes() == other.value.as_bytes()
}

/// Whether two lists have the same fields in the same order.
#[cycle(fields)]
pub fn same_fields(one: &[Field], other: &[Field]) -> bool
    ensures { IsTrue result ↔ (map field_text one.now ≡ map field_text other.now) }
{
    match one {
        [] => other.is_empty(),
        [first, one @ ..] => match other {
            [] => false,
            [second, other @ ..] => same_field(first, second) && same_fields(one, other),
        },
    }
}

/// Whether two responses are equal: status, age, stamp, fields and body.
pub fn same_answer(one: &Answer, other: &Answer) -> bool
    ensures { IsTrue result ↔ (one.now ≡ other.now) }
{
    one.status() == other.status()
        && one.age() == other.age()
        && one.stamp() == other.stamp()
        && same_fields(one.fields(), other.fields())
        && one.body() == other.body()
}

/// Whether two copies are equal.
pub fn same_copy(one: &WebCopy<()>, other: &WebCopy<()>) -> bool
    ensures { IsTrue result ↔ (one.now ≡ other.now) }
{
    one.stamp == other.stamp
        && one.asked == other.asked
        && one.lifetime == other.lifetime
        && same_key(&one.key, &other.key)
        && same_answer(&one.answer, &other.answer)
}
