use http_messages::{Answer, Ask};
use roster::Address;
use url_key::Key;
use values_plain::Octets;

/// One event of the world: one act of one actor, or a change of the clock. A lost item is one
/// whose delivery never comes.
#[derive(Drop)]
pub enum WorldEvent {
    /// The clock is set, forward or back.
    Clock {
        /// The new time, in seconds.
        now: u64,
    },
    /// A client sends a request to a member.
    Client {
        /// The member's id.
        node: u8,
        /// The request.
        ask: Ask,
    },
    /// A datagram that was sent arrives, for the first time or again.
    Datagram {
        /// Its number among all datagrams, from 1.
        number: u64,
    },
    /// A request that a member sent to a member arrives, for the first time or again.
    Ask {
        /// Its number among all requests between members, from 1.
        number: u64,
    },
    /// A response that a member sent to a member arrives, for the first time or again.
    Answer {
        /// Its number among all responses between members, from 1.
        number: u64,
        /// The serial of the receiver's fetch that it reaches. `None`: the serial of the request
        /// that it answers.
        serial: Option<u32>,
    },
    /// The origin responds to a read that is pending.
    Origin {
        /// The id of the member that reads.
        node: u8,
        /// The read's serial.
        serial: u32,
        /// The response.
        answer: Answer,
    },
    /// A foreign cache responds to a fetch that is pending.
    Foreign {
        /// The id of the member that fetches.
        node: u8,
        /// The fetch's serial.
        serial: u32,
        /// The response.
        answer: Answer,
    },
    /// A datagram arrives at a member from an address that is neither a member's nor the master's.
    /// Octets that spell no message by the protocol of their destination change nothing.
    Strange {
        /// Its destination: a member's ICP or HTCP address.
        to: Address,
        /// Its source.
        from: Address,
        /// Its octets.
        octets: Octets,
    },
    /// A member's fetch fails.
    Fail {
        /// The member's id.
        node: u8,
        /// The fetch's serial.
        serial: u32,
    },
    /// The waiting time of a member's round of queries is over.
    Expire {
        /// The member's id.
        node: u8,
        /// The round's serial.
        serial: u32,
    },
    /// A member's floor store fails, and the member closes.
    Fault {
        /// The member's id.
        node: u8,
    },
    /// A member restarts, with the floors that its store kept and nothing else.
    Restart {
        /// The member's id.
        node: u8,
    },
    /// The master issues a purge and sends its CLR to each member that the purge needs, or refuses.
    Issue {
        /// The URL's key.
        key: Key,
    },
    /// The master admits a joining member and sends it the CLR of its admission, or refuses.
    Admit {
        /// The member's id.
        node: u8,
    },
    /// The master sends the CLR of each pending number again to each member that the number needs
    /// and that has not acknowledged it.
    Resend,
    /// Somebody asks the master for the status of a number.
    Status {
        /// The number of a purge or of an admission.
        number: u32,
    },
    /// The master restarts, with the purges that its store kept.
    RestartMaster,
}
