//! The items of the network, and the requests that wait.
ghost use Rattle.std.specs.Prelude.{◌≡◌};

use http_messages::{Answer, Ask};
use node_rules::Sent;
use roster::Address;
use std::marker::Model;
use url_key::Key;

/// A datagram that was sent.
///
/// A contract sees its two addresses and its message.
#[derive(Drop)]
pub struct Datagram {
    /// Its source.
    pub sender: Address,
    /// Its destination.
    pub receiver: Address,
    /// Its message.
    pub message: Sent,
}

impl Model for Datagram {
    ghost use Rattle.world_rules.specs.World as world;

    ghost Value = { world.Datagram };

    ghost view = { λ d. record { sender = d.sender; receiver = d.receiver; message = d.message } };
}

/// A request that a member sent to a member.
#[derive(Drop)]
pub struct PeerAsk {
    /// The sender's id.
    pub sender: u8,
    /// The receiver's id.
    pub receiver: u8,
    /// The serial of the sender's fetch.
    pub serial: u32,
    /// The request.
    pub ask: Ask,
}

impl Model for PeerAsk {
    ghost use Rattle.world_rules.specs.World as world;

    ghost Value = { world.PeerAsk };

    ghost view = { λ a. record {
      sender = a.sender;
      receiver = a.receiver;
      serial = a.serial;
      ask = a.ask;
    } };
}

/// A response that a member sent to a member.
pub struct PeerAnswer {
    /// The sender's id.
    pub sender: u8,
    /// The receiver's id.
    pub receiver: u8,
    /// The serial of the request that it answers.
    pub serial: u32,
    /// The key that was requested.
    pub key: Key,
    /// The response.
    pub answer: Answer,
    /// The mark of the copy in it; 0 if it holds none.
    pub mark: u64,
}

impl Drop for PeerAnswer {
    fn drop(self) {
        let PeerAnswer {
            sender: _,
            receiver: _,
            serial: _,
            key: _,
            answer: _,
            mark: _,
        } = self;
    }
}

impl Model for PeerAnswer {
    ghost use Rattle.world_rules.specs.World as world;

    ghost Value = { world.PeerAnswer };

    ghost view = { λ a. record {
      sender = a.sender;
      receiver = a.receiver;
      serial = a.serial;
      key = a.key;
      answer = a.answer;
      mark = a.mark;
    } };
}

/// A member's request that waits at another member's node.
#[derive(Drop)]
pub struct Waiting {
    /// The id of the member where it waits.
    pub node: u8,
    /// Its block of serials there.
    pub block: u32,
    /// Its serial at its sender.
    pub serial: u32,
    /// The key that is requested.
    pub key: Key,
}

impl Model for Waiting {
    ghost use Rattle.world_rules.specs.World as world;

    ghost Value = { world.Waiting };

    ghost view = { λ w. record { node = w.node; block = w.block; serial = w.serial; key = w.key } };
}

/// A request that arrived and is answered: its serial at its sender, and its key.
#[derive(Drop)]
pub(crate) struct Arrived {
    /// The serial.
    pub serial: u32,
    /// The key.
    pub key: Key,
}

impl Model for Arrived {
    ghost use Rattle.world_rules.specs.World.{Answered};

    ghost Value = { Answered };

    ghost view = { λ a. record { serial = a.serial; key = a.key } };
}
