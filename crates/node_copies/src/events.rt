//! Copies events.
ghost use Rattle.std.specs.Prelude.{◌≡◌, IfOk};

use crate::messages::copy_of_received;
use node_rules::Event;
use std::alloc::{AllocError, Global};

/// Copies an event. The fields and the body of a response are shared.
pub fn copy_of_event<T: Copy>(alloc: Global, event: &Event<T>) -> Result<Event<T>, AllocError>
    ensures { IfOk result (λ copy. copy ≡ event.now) }
{
    match event {
        Event::Client { ask, now } => Ok(Event::Client {
            ask: ask.copy(alloc)?,
            now: *now,
        }),
        Event::PeerAsk { asker, ask, now } => Ok(Event::PeerAsk {
            asker: *asker,
            ask: ask.copy(alloc)?,
            now: *now,
        }),
        Event::Datagram { from, message, now } => Ok(Event::Datagram {
            from: *from,
            message: copy_of_received(alloc, message)?,
            now: *now,
        }),
        Event::PeerAnswer {
            serial,
            peer,
            key,
            answer,
            tag,
            now,
        } => Ok(Event::PeerAnswer {
            serial: *serial,
            peer: *peer,
            key: key.copy(alloc)?,
            answer: answer.copy()?,
            tag: *tag,
            now: *now,
        }),
        Event::OriginAnswer {
            serial,
            key,
            answer,
            now,
        } => Ok(Event::OriginAnswer {
            serial: *serial,
            key: key.copy(alloc)?,
            answer: answer.copy()?,
            now: *now,
        }),
        Event::ForeignAnswer {
            serial,
            peer,
            key,
            answer,
            tag,
            now,
        } => Ok(Event::ForeignAnswer {
            serial: *serial,
            peer: *peer,
            key: key.copy(alloc)?,
            answer: answer.copy()?,
            tag: *tag,
            now: *now,
        }),
        Event::FetchFailed { serial, now } => Ok(Event::FetchFailed {
            serial: *serial,
            now: *now,
        }),
        Event::Expired { serial, now } => Ok(Event::Expired {
            serial: *serial,
            now: *now,
        }),
    }
}
