//! Copies replies.
ghost use Rattle.std.specs.Prelude.{◌≡◌, IfOk};

use crate::messages::copy_of_sent;
use node_rules::{Begin, Outgoing, Reply, Serve, Served};
use roster::Listed;
use std::alloc::{AllocError, Global};

/// Copies what is served. The fields and the body of a copy are shared.
fn copy_of_served<T: Copy>(alloc: Global, served: &Served<T>) -> Result<Served<T>, AllocError>
    ensures { IfOk result (λ copy. copy ≡ served.now) }
{
    match served {
        Served::Copy { copy, age } => Ok(Served::Copy {
            copy: copy.copy(alloc)?,
            age: *age,
        }),
        Served::Status(status) => Ok(Served::Status(*status)),
    }
}

/// Copies what is served to whom, if anything is.
fn copy_of_serve<T: Copy>(
    alloc: Global,
    serve: &Option<Serve<T>>,
) -> Result<Option<Serve<T>>, AllocError>
    ensures { IfOk result (λ copy. copy ≡ serve.now) }
{
    match serve {
        Some(serve) => Ok(Some(Serve {
            waiter: serve.waiter,
            asker: serve.asker,
            served: copy_of_served(alloc, &serve.served)?,
        })),
        None => Ok(None),
    }
}

/// Copies a datagram to send.
fn copy_of_outgoing(alloc: Global, outgoing: &Outgoing) -> Result<Outgoing, AllocError>
    ensures { IfOk result (λ copy. copy ≡ outgoing.now) }
{
    Ok(Outgoing {
        to: outgoing.to,
        message: copy_of_sent(alloc, &outgoing.message)?,
    })
}

/// Copies any number of datagrams to send.
fn copy_of_several(alloc: Global, send: &[Outgoing]) -> Result<Vec<Outgoing>, AllocError>
    ensures { IfOk result (λ copy. copy.items ≡ send.now) }
{
    let mut copy = Vec::with_capacity(alloc, send.len())?;
    for outgoing in send {
        copy.push(copy_of_outgoing(alloc, outgoing)?)?;
    }
    Ok(copy)
}

/// Copies the datagrams to send. One alone needs no memory for a list.
fn copy_of_send(alloc: Global, send: &[Outgoing]) -> Result<Listed<Outgoing>, AllocError>
    ensures { IfOk result (λ copy. copy ≡ send.now) }
{
    match send {
        [outgoing] => Ok(Listed::one(copy_of_outgoing(alloc, outgoing)?)),
        _ => Ok(Listed::new(copy_of_several(alloc, send)?)),
    }
}

/// Copies what begins, if anything does.
fn copy_of_begin(alloc: Global, begin: &Option<Begin>) -> Result<Option<Begin>, AllocError>
    ensures { IfOk result (λ copy. copy ≡ begin.now) }
{
    match begin {
        Some(Begin::Round { serial }) => Ok(Some(Begin::Round { serial: *serial })),
        Some(Begin::Peer { serial, peer, ask }) => Ok(Some(Begin::Peer {
            serial: *serial,
            peer: *peer,
            ask: ask.copy(alloc)?,
        })),
        Some(Begin::Read { serial, ask }) => Ok(Some(Begin::Read {
            serial: *serial,
            ask: ask.copy(alloc)?,
        })),
        None => Ok(None),
    }
}

/// Copies a reply. The fields and the body of a copy that is served are shared.
pub fn copy_of_reply<T: Copy>(alloc: Global, reply: &Reply<T>) -> Result<Reply<T>, AllocError>
    ensures { IfOk result (λ copy. copy ≡ reply.now) }
{
    Ok(Reply {
        serve: copy_of_serve(alloc, &reply.serve)?,
        send: copy_of_send(alloc, reply.send.as_slice())?,
        begin: copy_of_begin(alloc, &reply.begin)?,
    })
}
