ghost use Rattle.std.specs.Prelude.{◌≡◌, ◌↔◌, IsTrue};
ghost use Rattle.node_rules.specs.Messages.{protocol_of, clear_answer as clear_answer_in_message};
ghost use Rattle.node_rules.specs.Texts.{IsAnswerable, IsSendable};
ghost use Rattle.node_rules.specs.Spelled.{IsSpelled};

use htcp_wire::{Content, Htcp};
use icp_wire::Icp;
use roster::{Address, Udp};
use std::marker::Model;

/// A message by either protocol.
#[derive(Debug, Drop)]
pub enum Message {
    /// A message of ICP version 2 (RFC 2186).
    Icp(Icp),
    /// A message of HTCP/0.0 (RFC 2756).
    Htcp(Htcp),
}

impl Message {
    /// The protocol that carries it.
    pub fn protocol(&self) -> Udp
        ensures { result ≡ protocol_of self.now }
    {
        match self {
            Message::Icp(_) => Udp::Icp,
            Message::Htcp(_) => Udp::Htcp,
        }
    }

    /// The TRANS-ID and the response code, if it is a response to a CLR (RFC 2756, section 6.5).
    pub fn clear_answer(&self) -> Option<(u32, u8)>
        ensures { result ≡ clear_answer_in_message self.now }
    {
        match self {
            Message::Htcp(message) => match &message.content {
                Content::ClrAnswer { code } => Some((message.trans, *code)),
                _ => None,
            },
            Message::Icp(_) => None,
        }
    }
}

/// A message that arrived: some octets spell it, by its protocol. So it can be answered: a response
/// that repeats its number and URL, or its opcode, can be encoded.
///
/// A contract sees the message.
#[derive(Debug)]
pub struct Received {
    message: Message,
}

impl Drop for Received {
    fn drop(self) {
        let Received { message: _ } = self;
    }
}

impl Model for Received {
    ghost use Rattle.node_rules.specs.declared.message.Message.{Message};
    ghost use Rattle.node_rules.specs.Spelled.{IsSpelled};

    ghost Value = { Message };

    ghost view = { λ r. r.message };

    ghost invariant = { λ r. IsSpelled r.message };
}

impl Received {
    /// Takes a message that octets spell, as `decode` of its codec gives it.
    pub fn new(message: Message) -> Received
        requires { IsSpelled message }
        ensures { result ≡ message }
    {
        Received { message }
    }

    /// The message.
    pub fn message(&self) -> &Message
        ensures value { result.now ≡ self.now }
        ensures spelled { IsSpelled self.now }
        ensures answerable { IsAnswerable self.now }
    {
        &self.message
    }

    /// Gives the message back.
    pub fn into_message(self) -> Message
        ensures value { result ≡ self }
        ensures answerable { IsAnswerable self }
    {
        let Received { message } = self;
        message
    }
}

/// A message to send, which can be encoded.
///
/// A contract sees the message.
#[derive(Debug)]
pub struct Sent {
    message: Message,
}

impl Drop for Sent {
    fn drop(self) {
        let Sent { message: _ } = self;
    }
}

impl Model for Sent {
    ghost use Rattle.node_rules.specs.declared.message.Message.{Message};
    ghost use Rattle.node_rules.specs.Texts.{IsSendable};

    ghost Value = { Message };

    ghost view = { λ s. s.message };

    ghost invariant = { λ s. IsSendable s.message };
}

impl Sent {
    /// Takes a message that can be encoded, as `fits` tells.
    pub fn new(message: Message) -> Sent
        requires { IsSendable message }
        ensures { result ≡ message }
    {
        Sent { message }
    }

    /// The message.
    pub fn message(&self) -> &Message
        ensures value { result.now ≡ self.now }
        ensures sendable { IsSendable self.now }
    {
        &self.message
    }
}

/// A datagram to send.
#[derive(Debug, Drop)]
pub struct Outgoing {
    /// The receiver's address.
    pub to: Address,
    /// The message.
    pub message: Sent,
}

/// Whether the message can be encoded, as `fits` of its codec tells.
pub fn fits(message: &Message) -> bool
    ensures { IsTrue result ↔ IsSendable message.now }
{
    match message {
        Message::Icp(message) => icp_wire::fits(message),
        Message::Htcp(message) => htcp_wire::fits(message),
    }
}
