//! Encodes datagrams.
ghost use Rattle.std.specs.Prelude.{◌≡◌, Some, IfOk};
ghost use Rattle.node_rules.specs.Messages.{protocol_of};
ghost use Rattle.node_rules.specs.Spelled.{decoded_by};
ghost use Rattle.node_bytes.specs.Bytes.{text_of};

use node_rules::{Message, Outgoing, Sent};
use std::alloc::{AllocError, Global};

/// Encodes a message by the codec of its protocol. `AllocError` is the only fault.
///
/// The same codec decodes the octets as this message.
pub fn encode(alloc: Global, sent: &Sent) -> Result<Vec<u8>, AllocError>
    ensures text { IfOk result (λ octets. octets.items ≡ text_of sent.now) }
    ensures read { IfOk result (λ octets.
        decoded_by (protocol_of sent.now) octets.items ≡ Some sent.now) }
{
    match sent.message() {
        Message::Icp(message) => {
            let _number = message.number;
            match icp_wire::encode(alloc, message) {
                Ok(octets) => Ok(octets),
                Err(_) => Err(AllocError),
            }
        }
        Message::Htcp(message) => {
            let _number = message.trans;
            match htcp_wire::encode(alloc, message) {
                Ok(octets) => Ok(octets),
                Err(_) => Err(AllocError),
            }
        }
    }
}

/// Encodes the message of a datagram to send. `AllocError` is the only fault.
pub fn octets_of(alloc: Global, sent: &Outgoing) -> Result<Vec<u8>, AllocError>
    ensures { IfOk result (λ octets. octets.items ≡ text_of sent.now.message) }
{
    encode(alloc, &sent.message)
}
