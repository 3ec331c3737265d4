use crate::Received;
use http_messages::{Answer, Ask};
use roster::Address;
use url_key::Key;

/// The input of a node's step. Times (`now`) are in seconds.
///
/// `T` is the type of the tags that copies carry; no rule looks at them.
#[derive(Drop)]
pub enum Event<T> {
    /// A client's request arrives.
    Client {
        /// The request.
        ask: Ask,
        /// The time.
        now: u64,
    },
    /// A datagram arrives, by ICP or HTCP.
    Datagram {
        /// The sender's address.
        from: Address,
        /// The message that it spells.
        message: Received,
        /// The time.
        now: u64,
    },
    /// A request of another member arrives by HTTP.
    PeerAsk {
        /// The member's id.
        asker: u8,
        /// The request.
        ask: Ask,
        /// The time.
        now: u64,
    },
    /// A member responds to a fetch.
    PeerAnswer {
        /// The serial of the fetch.
        serial: u32,
        /// The member's id.
        peer: u8,
        /// The URL that was requested.
        key: Key,
        /// The response.
        answer: Answer,
        /// The tag of the copy that the member served.
        tag: T,
        /// The time.
        now: u64,
    },
    /// The origin responds to a read.
    OriginAnswer {
        /// The serial of the read.
        serial: u32,
        /// The URL that was requested.
        key: Key,
        /// The response.
        answer: Answer,
        /// The time.
        now: u64,
    },
    /// A foreign cache responds to a fetch.
    ForeignAnswer {
        /// The serial of the fetch.
        serial: u32,
        /// The id of the foreign cache.
        peer: u8,
        /// The URL that was requested.
        key: Key,
        /// The response.
        answer: Answer,
        /// The tag that the copy gets.
        tag: T,
        /// The time.
        now: u64,
    },
    /// A fetch fails.
    FetchFailed {
        /// The serial of the fetch.
        serial: u32,
        /// The time.
        now: u64,
    },
    /// A round has waited for its time.
    Expired {
        /// The serial of the round.
        serial: u32,
        /// The time.
        now: u64,
    },
}
