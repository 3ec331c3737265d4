//! Which event a line is.
ghost use Rattle.std.specs.Prelude.{◌≡◌, ◌∷◌, [], IfOk};
ghost use Rattle.cli_world.specs.Command.{command_of, command_text};
ghost use Rattle.cli_world.specs.Event.{max_age_field, IsAskedFor, IsOriginFor, IsIssueFor};
ghost use Rattle.cli_world.specs.Event.{IsHeardAs, IsHeardIn};

use crate::line::{Line, line_of};
use http_header::{HeaderName, HeaderValue};
use http_messages::{Answer, Ask, Body, Field, Fields};
use std::alloc::{AllocError, Global};
use url_key::{Key, KeyFault};
use values_lines::words_of;
use world_rules::WorldEvent;

/// What a line is understood as.
#[derive(Drop)]
pub(crate) enum Heard {
    /// An event of the world.
    Event(WorldEvent),
    /// A URL that has no key, with its fault.
    BadUrl(KeyFault),
    /// A bad line.
    Bad,
}

/// What a line is understood as.
pub(crate) fn heard_in(alloc: Global, line: &[u8]) -> Result<Heard, AllocError>
    ensures { IfOk result (IsHeardIn line.now) }
{
    let words = words_of(alloc, line)?;
    heard_as(alloc, line_of(words.as_slice()))
}

/// What a line is understood as, by what it asks for.
fn heard_as(alloc: Global, line: Line<'_>) -> Result<Heard, AllocError>
    ensures { IfOk result (IsHeardAs (command_text line.entry)) }
{
    Ok(Heard::Event(match line {
        Line::Clock { now } => WorldEvent::Clock { now },
        Line::Client {
            node,
            url,
            only_if_cached,
        } => return client(alloc, node, url, only_if_cached),
        Line::Datagram { number } => WorldEvent::Datagram { number },
        Line::Ask { number } => WorldEvent::Ask { number },
        Line::Answer { number, serial } => WorldEvent::Answer { number, serial },
        Line::Origin {
            node,
            serial,
            status,
            body,
        } => return origin(alloc, node, serial, status, body),
        Line::Fail { node, serial } => WorldEvent::Fail { node, serial },
        Line::Expire { node, serial } => WorldEvent::Expire { node, serial },
        Line::Fault { node } => WorldEvent::Fault { node },
        Line::Restart { node } => WorldEvent::Restart { node },
        Line::Issue { url } => return issue(alloc, url),
        Line::Admit { node } => WorldEvent::Admit { node },
        Line::Resend => WorldEvent::Resend,
        Line::Status { number } => WorldEvent::Status { number },
        Line::Master => WorldEvent::RestartMaster,
        Line::Bad => return Ok(Heard::Bad),
    }))
}

/// The event that a client asks a member for a URL.
fn client(alloc: Global, node: u8, url: &[u8], only_if_cached: bool) -> Result<Heard, AllocError>
    ensures { IfOk result (IsAskedFor node url.now only_if_cached) }
{
    let key = match Key::read(alloc, url) {
        Ok(key) => key,
        Err(KeyFault::NoMemory) => return Err(AllocError),
        Err(fault) => return Ok(Heard::BadUrl(fault)),
    };
    let ask = Ask {
        key,
        only_if_cached,
        no_cache: false,
        member: None,
    };
    Ok(Heard::Event(WorldEvent::Client { node, ask }))
}

/// The event that a purge of a URL is issued.
fn issue(alloc: Global, url: &[u8]) -> Result<Heard, AllocError>
    ensures { IfOk result (IsIssueFor url.now) }
{
    match Key::read(alloc, url) {
        Ok(key) => Ok(Heard::Event(WorldEvent::Issue { key })),
        Err(KeyFault::NoMemory) => Err(AllocError),
        Err(fault) => Ok(Heard::BadUrl(fault)),
    }
}

/// The event that the origin answers a read with this status and body, and a lifetime of 60
/// seconds.
fn origin(
    alloc: Global,
    node: u8,
    serial: u32,
    status: u16,
    body: &[u8],
) -> Result<Heard, AllocError>
    ensures { IfOk result (IsOriginFor node serial status body.now) }
{
    let fields = fields_of(alloc)?;
    let body = Body::from_slice(alloc, body)?;
    match Answer::new(status, fields, None, None, body) {
        Some(answer) => Ok(Heard::Event(WorldEvent::Origin {
            node,
            serial,
            answer,
        })),
        None => Ok(Heard::Bad),
    }
}

/// The one field `cache-control: max-age=60`.
fn fields_of(alloc: Global) -> Result<Fields, AllocError>
    ensures { IfOk result (λ fields. fields ≡ max_age_field ∷ []) }
{
    let Ok(name) = HeaderName::from_bytes(alloc, b"cache-control") else {
        return Err(AllocError);
    };
    let Ok(value) = HeaderValue::from_bytes(alloc, b"max-age=60") else {
        return Err(AllocError);
    };
    let mut fields = Vec::with_capacity(alloc, 1)?;
    if fields.push(Field { name, value }).is_err() {
        return Err(AllocError);
    }
    match Fields::new(alloc, fields) {
        Ok(fields) => Ok(fields),
        Err(_) => Err(AllocError),
    }
}
