ghost use Rattle.std.specs.Prelude.{◌≡◌};
ghost use Rattle.node_rules.specs.Names.{step_fault_name};

use crate::Outgoing;
use http_messages::Ask;
use object_store::WebCopy;
use roster::Listed;
use std::alloc::AllocError;
use thiserror::Error;

/// What is served in response to a request.
#[derive(Drop)]
pub enum Served<T> {
    /// A copy.
    Copy {
        /// The copy.
        copy: WebCopy<T>,
        /// Its age in seconds, at most 2147483648 (RFC 9111, sections 1.2.2 and 5.1).
        age: u64,
    },
    /// A status without a body (RFC 9110, section 15): 502, 503 or 504.
    Status(u16),
}

/// What is served, and to whom.
pub struct Serve<T> {
    /// The block of the pending request that is served; none for the request of this event.
    pub waiter: Option<u32>,
    /// The member that sent the request; none for a client.
    pub asker: Option<u8>,
    /// What is served.
    pub served: Served<T>,
}

impl<T: Drop> Drop for Serve<T> {
    fn drop(self) {
        let Serve {
            waiter: _,
            asker: _,
            served: _,
        } = self;
    }
}

/// What a step begins. The caller carries it out, and hands in its end as an event.
#[derive(Debug, Drop)]
pub enum Begin {
    /// A round of queries; they are among the datagrams sent. The caller lets it expire after the
    /// roster's `query_wait`.
    Round {
        /// The serial of the round.
        serial: u32,
    },
    /// A fetch from a peer.
    Peer {
        /// The serial of the fetch.
        serial: u32,
        /// The peer's id.
        peer: u8,
        /// The request to send.
        ask: Ask,
    },
    /// A read of the origin.
    Read {
        /// The serial of the read.
        serial: u32,
        /// The request to send.
        ask: Ask,
    },
}

/// The output of a step.
#[derive(Drop)]
pub struct Reply<T> {
    /// What to serve, if anything.
    pub serve: Option<Serve<T>>,
    /// The datagrams to send, in order.
    pub send: Listed<Outgoing>,
    /// What to begin, if anything.
    pub begin: Option<Begin>,
}

/// Why a step was refused.
#[derive(Clone, Copy, Debug, PartialEq, Eq, Hash, Error)]
pub enum StepFault {
    /// The node is closed. Nothing changed.
    #[error("the node is closed")]
    Closed,
    /// No pending request waits at this serial, with this key and this source. Nothing changed.
    #[error("no pending ask is at this serial")]
    UnknownSerial,
    /// 1,024 requests are pending. Nothing changed.
    #[error("too many asks wait")]
    Busy,
    /// The floor store failed. The node is closed.
    #[error("the floor store failed")]
    StoreFault,
    /// An allocation failed. Nothing changed, unless the floor store reported it: then the node is
    /// closed.
    #[error("there was no memory")]
    NoMemory,
}

impl From<AllocError> for StepFault {
    ghost use Rattle.std.specs.Prelude.{◌≡◌};
    ghost use Rattle.node_rules.specs.declared.reply.StepFault.TheVariants.{NoMemory};

    ghost from_gives = { λ _ fault. fault ≡ NoMemory };

    fn from(_: AllocError) -> StepFault {
        StepFault::NoMemory
    }
}

impl StepFault {
    /// The fault's name, as scripts print it.
    pub const fn name(self) -> &'static str
        ensures { result.now ≡ step_fault_name self }
    {
        match self {
            StepFault::Closed => "Closed",
            StepFault::UnknownSerial => "UnknownSerial",
            StepFault::Busy => "Busy",
            StepFault::StoreFault => "StoreFault",
            StepFault::NoMemory => "NoMemory",
        }
    }
}
