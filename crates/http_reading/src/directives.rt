//! The directives of a request's `cache-control` fields (RFC 9111, section 5.2.1).

ghost use Rattle.std.specs.Prelude.{◌≡◌};
ghost use Rattle.http_reading.specs.Directives as spec;
ghost use Rattle.http_reading.specs.Fields.{fields_of};

use crate::fields::all_named;
use http_lists::{members_of, trim};
use httparse::spans::HeaderSpan;

/// Whether a request has the directive `only-if-cached`: the client wants a stored response only
/// (RFC 9111, section 5.2.1.7).
///
/// All `cache-control` fields count. Commas outside quoted strings separate directives; blanks
/// around a directive and the case of its name do not matter. A directive with a value, such as
/// `only-if-cached=1`, is not this directive.
pub fn is_only_if_cached(window: &[u8], headers: &[HeaderSpan]) -> bool
    ensures { result ≡ spec.only_if_cached (fields_of window.now headers.now) }
{
    has_directive(window, headers, b"only-if-cached")
}

/// Whether a request has the directive `no-cache`: the client wants no stored response without
/// validation (RFC 9111, section 5.2.1.4). It is found as `only-if-cached` is: `no-cache="x"`, a
/// directive of responses, is not this one.
pub fn is_no_cache(window: &[u8], headers: &[HeaderSpan]) -> bool
    ensures { result ≡ spec.no_cache (fields_of window.now headers.now) }
{
    has_directive(window, headers, b"no-cache")
}

/// Whether a `cache-control` field has this directive.
fn has_directive(window: &[u8], headers: &[HeaderSpan], name: &[u8]) -> bool
    ensures { result ≡ spec.has_directive name.now (fields_of window.now headers.now) }
{
    all_named(window, headers, b"cache-control").any(|value| has_member(value, name))
}

/// Whether a member of the value is this name, without a value of its own.
fn has_member(value: &[u8], name: &[u8]) -> bool
    ensures { result ≡ spec.has_member name.now value.now }
{
    members_of(value).any(|member| trim(member).eq_ignore_ascii_case(name))
}
