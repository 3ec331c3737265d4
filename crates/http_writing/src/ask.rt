ghost use Rattle.std.specs.Prelude.{◌≡◌, IfErr, IsTrue};
ghost use Rattle.values_plain.specs.Writing.{Writes};
ghost use Rattle.http_writing.specs.Ask.{ask_text, target as target_text, request_line, key_lines};
ghost use Rattle.http_writing.specs.Ask.{cache_control_line};
ghost use Rattle.http_writing.specs.Name.{is_name as names_cache};

use crate::lines::{write, write_field, write_last_lines, write_number, write_three};
use http_messages::{Ask, FetchFault};
use std::io::Write;
use url_key::Key;

/// The form of a request target (RFC 9112, section 3.2).
#[derive(Clone, Copy, Debug, PartialEq, Eq)]
pub enum AskForm {
    /// The whole URL, for a cache (absolute-form, section 3.2.2).
    Absolute,
    /// Path and query, for an origin (origin-form, section 3.2.1).
    Origin,
}

/// Writes a request (RFC 9112, section 3): a GET in HTTP/1.1 with `host`, `cache-control` where a
/// directive is set, `connection: close`, `via: 1.1` with the name `via` of the cache that sends
/// it, and `x-purge-member` where the request names a member.
///
/// `via` must pass [`crate::is_name`]. The only fault is `Io`: the writer failed, and a proper
/// front of the text was written. It does not allocate.
pub fn write_ask<W: Write>(
    writer: &mut W,
    ask: &Ask,
    form: AskForm,
    via: &[u8],
) -> Result<(), FetchFault>
    requires { IsTrue (names_cache via.now) }
    ensures written { Writes (W.contents writer.old) (W.contents writer.new) result
        (ask_text form ask.now via.now) }
    ensures fault { IfErr result (λ fault. fault ≡ FetchFault.Io) }
{
    write_key_lines(writer, form, &ask.key)?;
    write(writer, cache_control(ask.only_if_cached, ask.no_cache))?;
    write_last_lines(writer, via)?;
    write_number(writer, b"x-purge-member", number_of(ask.member))?;
    write(writer, b"\r\n")
}

/// Writes the request line and the `host` field.
fn write_key_lines<W: Write>(writer: &mut W, form: AskForm, key: &Key) -> Result<(), FetchFault>
    ensures written { Writes (W.contents writer.old) (W.contents writer.new) result
        (key_lines form key.now) }
    ensures fault { IfErr result (λ fault. fault ≡ FetchFault.Io) }
{
    write_three(writer, b"GET ", target(form, key), b" HTTP/1.1\r\n")?;
    write_field(writer, b"host", key.authority())
}

/// The request target of a key, in this form.
fn target(form: AskForm, key: &Key) -> &[u8]
    ensures { result.now ≡ target_text form key.now }
{
    match form {
        AskForm::Absolute => key.text(),
        AskForm::Origin => key.path_and_query(),
    }
}

/// The `cache-control` line of the directives that are set; empty where none is.
fn cache_control(only_if_cached: bool, no_cache: bool) -> &'static [u8]
    ensures { result.now ≡ cache_control_line only_if_cached no_cache }
{
    match (only_if_cached, no_cache) {
        (true, true) => b"cache-control: only-if-cached, no-cache\r\n",
        (true, false) => b"cache-control: only-if-cached\r\n",
        (false, true) => b"cache-control: no-cache\r\n",
        (false, false) => b"",
    }
}

/// The number of a member, as [`write_number`] takes it.
fn number_of(member: Option<u8>) -> Option<u32>
    ensures { result ≡ member }
{
    match member {
        Some(member) => Some(u32::from(member)),
        None => None,
    }
}
