ghost use Rattle.std.specs.Prelude.{◌≡◌, bytes_eq, codes, Some, None, find, option_map};
ghost use Rattle.std.specs.List.{list_any};
ghost use Rattle.http_messages.specs.Field.{field_text};
ghost use Rattle.reuse_rules.specs.Directives.{directives, directive_text, is_called};
ghost use Rattle.reuse_rules.specs.Directives.{is_ill_quoted as is_ill_quoted_field};
ghost use Rattle.reuse_rules.specs.Lifetime as spec;

use crate::directive::{Directive, directives_of};
use http_lists::is_well_quoted;
use http_messages::{Answer, Field};

/// The freshness lifetime of a response in seconds, above 0 (RFC 9111, section 4.2.1). `None`: it
/// is not stored.
///
/// Not stored is a response
///
/// - with a status other than 200, 203, 300, 301, 404 and 410 (six of those of RFC 9110, section
///   15.1);
/// - with a `vary` field (RFC 9111, section 4.1);
/// - with a `cache-control` directive `no-store`, `private` or `no-cache`, with or without a value
///   (sections 5.2.2.4, 5.2.2.5 and 5.2.2.7);
/// - with a `cache-control` field in which a quoted string is not closed, or begins elsewhere than
///   behind `,`, `;` or `=`, or at the start of the field's value, since such a directive may stand
///   behind the quote.
///
/// Else the lifetime is the value of the first `s-maxage` (section 5.2.2.10), else that of the
/// first `max-age` (5.2.2.1). Without either, a response with an `expires` field is not stored
/// (5.3), and any other has the lifetime `default` (4.2.2). A response with a lifetime of 0 is not
/// stored.
///
/// All `cache-control` fields make one list. Commas outside quoted strings separate directives;
/// the case of their names does not matter. A value may stand in double quotes. A value that is
/// not all digits counts as 0, and a greater one counts as 2,147,483,648. `date` is not used. It
/// does not allocate.
#[tactic(auto, unfolding(crate::specs::Lifetime::lifetime))]
pub fn lifetime(answer: &Answer, default: u64) -> Option<u64>
    ensures { result ≡ spec.lifetime answer.now default }
{
    if is_kept_out(answer) {
        return None;
    }
    told_seconds(answer, default).filter(|seconds| *seconds != 0)
}

/// Whether the response is not stored, whatever its lifetime.
fn is_kept_out(answer: &Answer) -> bool
    ensures { result ≡ spec.is_kept_out answer.now }
{
    !is_stored_status(answer.status())
        || has_field("vary", answer)
        || hides_directives(answer)
        || has_forbidding(answer)
}

/// Whether a quoted string in a `cache-control` field is left open or begins where none may. A
/// directive behind the quote is not read.
fn hides_directives(answer: &Answer) -> bool
    ensures { result ≡ spec.hides_directives answer.now }
{
    is_one_ill_quoted(answer.fields())
}

/// Whether one of the fields is a `cache-control` field with such a quoted string.
fn is_one_ill_quoted(fields: &[Field]) -> bool
    ensures { result ≡ list_any (λ field. is_ill_quoted_field (field_text field)) fields.now }
{
    fields.iter().any(|field| is_ill_quoted(field))
}

/// Whether the field is a `cache-control` field with such a quoted string.
fn is_ill_quoted(field: &Field) -> bool
    ensures { result ≡ is_ill_quoted_field (field_text field.now) }
{
    field.name.as_str() == "cache-control" && !is_well_quoted(field.value.as_bytes())
}

/// Whether a directive of the response forbids storing it here.
fn has_forbidding(answer: &Answer) -> bool
    ensures { result ≡ list_any spec.forbids_storing (directives answer.now) }
{
    directives_of(answer).any(|directive| forbids_storing(directive))
}

/// Whether responses with this status are stored.
fn is_stored_status(status: u16) -> bool
    ensures { result ≡ spec.is_stored_status status }
{
    matches!(status, 200 | 203 | 300 | 301 | 404 | 410)
}

/// Whether the response has a field with this name, given in lower case.
fn has_field(name: &str, answer: &Answer) -> bool
    ensures { result ≡ spec.has_field name.now answer.now }
{
    is_among(name, answer.fields())
}

/// Whether one of the fields has this name, given in lower case.
fn is_among(name: &str, fields: &[Field]) -> bool
    ensures { result ≡ list_any (λ field. bytes_eq field.name name.now) fields.now }
{
    fields.iter().any(|field| field.name.as_str() == name)
}

/// Whether a directive forbids storing a response here, with or without a value.
fn forbids_storing(directive: Directive<'_>) -> bool
    ensures { result ≡ spec.forbids_storing (directive_text directive.entry) }
{
    directive.is_called(b"no-store")
        || directive.is_called(b"private")
        || directive.is_called(b"no-cache")
}

/// The seconds of `s-maxage`, else of `max-age`, else `default`. `None`: neither directive is
/// there, and an `expires` field is.
fn told_seconds(answer: &Answer, default: u64) -> Option<u64>
    ensures { result ≡ spec.told_seconds (spec.first_seconds (codes "s-maxage") answer.now)
        (spec.first_seconds (codes "max-age") answer.now)
        (spec.has_field (codes "expires") answer.now) default }
{
    let told = first_seconds(b"s-maxage", answer).or_else(|| first_seconds(b"max-age", answer));
    match told {
        None if !has_field("expires", answer) => Some(default),
        told => told,
    }
}

/// The seconds of the first directive with this name. `None`: there is no such directive.
fn first_seconds(name: &[u8], answer: &Answer) -> Option<u64>
    ensures { result ≡ spec.first_seconds name.now answer.now }
{
    first_called(name, answer).map(|directive| directive.seconds())
}

/// The first directive with this name.
fn first_called<'a>(name: &[u8], answer: &'a Answer) -> Option<Directive<'a>>
    ensures { option_map directive_text result ≡ find (is_called name.now) (directives answer.now) }
{
    directives_of(answer).find(|directive| directive.is_called(name))
}
