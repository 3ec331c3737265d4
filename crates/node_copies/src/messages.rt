//! Copies messages.
ghost use Rattle.std.specs.Prelude.{◌≡◌, IfOk};

use node_rules::{Message, Received, Sent};
use std::alloc::{AllocError, Global};

/// Copies a message.
fn copy_of_message(alloc: Global, message: &Message) -> Result<Message, AllocError>
    ensures { IfOk result (λ copy. copy ≡ message.now) }
{
    Ok(match message {
        Message::Icp(message) => Message::Icp(message.copy(alloc)?),
        Message::Htcp(message) => Message::Htcp(message.copy(alloc)?),
    })
}

/// Copies a received message.
pub fn copy_of_received(alloc: Global, message: &Received) -> Result<Received, AllocError>
    ensures { IfOk result (λ copy. copy ≡ message.now) }
{
    let copy = copy_of_message(alloc, message.message())?;
    Ok(Received::new(copy))
}

/// Copies a message to send.
pub fn copy_of_sent(alloc: Global, message: &Sent) -> Result<Sent, AllocError>
    ensures { IfOk result (λ copy. copy ≡ message.now) }
{
    let copy = copy_of_message(alloc, message.message())?;
    Ok(Sent::new(copy))
}
