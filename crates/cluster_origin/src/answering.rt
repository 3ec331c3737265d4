//! What the origin answers.
ghost use Rattle.std.specs.Prelude.{◌≡◌, ◌≤◌, ◌∷◌, [], length, IfOk};
ghost use Rattle.cluster_origin.specs.Answer.{answer_for, body_of, lifetime};

use http_header::{HeaderName, HeaderValue};
use http_messages::{Answer, Ask, Body, Field, Fields};
use itoa::Buffer;
use std::alloc::{AllocError, Global};
use url_key::Key;

/// How many octets follow the path at most: a space and ten digits.
const MOST_BEHIND: usize = 11;

/// The response to a request that is the `count`th to be answered: status 200, `cache-control:
/// max-age=60`, no age, no stamp, and as body the path that is asked for, with its query, a space
/// and the count. `AllocError` comes where there is no memory.
pub fn answer_to(alloc: Global, ask: &Ask, count: u32) -> Result<Answer, AllocError>
    ensures { IfOk result (λ answer. answer ≡ answer_for ask.now.key count) }
{
    let fields = fields_of(alloc)?;
    let body = body_for(alloc, &ask.key, count)?;
    match Answer::new(200, fields, None, None, body) {
        Some(answer) => Ok(answer),
        None => unreachable!(),
    }
}

/// The one field `cache-control: max-age=60`.
fn fields_of(alloc: Global) -> Result<Fields, AllocError>
    ensures { IfOk result (λ fields. fields ≡ lifetime ∷ []) }
{
    let name = HeaderName::from_static("cache-control");
    let value = HeaderValue::from_static("max-age=60");
    let fields = vec![in alloc; Field { name, value }]?;
    Ok(Fields::new(alloc, fields)?)
}

/// The path of a key with its query, a space and the count: at most 1,035 octets.
fn body_for(alloc: Global, key: &Key, count: u32) -> Result<Body, AllocError>
    ensures value { IfOk result (λ body. body ≡ body_of key.now count) }
    ensures short { IfOk result (λ body. length body ≤ 1035) }
{
    let mut buffer = Buffer::new();
    let mut text = Vec::with_capacity(alloc, key.text().len() + MOST_BEHIND)?;
    text.extend_from_slice(key.path_and_query())?;
    text.extend_from_slice(b" ")?;
    text.extend_from_slice(buffer.format(count).as_bytes())?;
    Body::from_vec(text)
}
