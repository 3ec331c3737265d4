ghost use Rattle.std.specs.Prelude.{◌≡◌};

use floor_rules::Floors;
use http_messages::Ask;
use object_store::WebCopy;
use peer_chooser::Round;
use roster::Listed;

/// How many serials a block has.
pub const SERIALS: u32 = 32;

/// Where the response to a pending request is fetched from at present.
#[derive(Debug, Drop)]
pub enum Fetch<T> {
    /// No fetch runs: the request waits for the answers of its peers.
    Nowhere,
    /// A peer was asked.
    AtPeer {
        /// The peer's id.
        peer: u8,
        /// When it was asked, in seconds.
        asked: u64,
    },
    /// The origin is being read.
    AtOrigin {
        /// The greatest number that the node knew when the read began.
        stamp: u32,
        /// When the read began, in seconds.
        asked: u64,
        /// The mark of the step that began the read.
        mark: T,
    },
}

/// A request that waits for its response.
///
/// Block b, from 1 to 134,217,727, has the serials 32b to 32b + 31. The request's round has serial
/// 32b, which is also its ICP request number and its HTCP TRANS-ID. Its fetches have 32b + 1, 32b +
/// 2 and so on.
pub struct Pending<T> {
    /// The block of its serials.
    pub block: u32,
    /// The member that sent it; none for a client.
    pub asker: Option<u8>,
    /// The request.
    pub ask: Ask,
    /// The round of queries to the node's peers, if there is one.
    pub round: Option<Round>,
    /// The peers whose fetch failed or whose response was not used.
    pub tried: Listed<u8>,
    /// How many fetches were begun for it.
    pub fetches: u8,
    /// How many of them were origin reads, at most 3.
    pub reads: u8,
    /// The present fetch.
    pub fetch: Fetch<T>,
}

impl<T: Drop> Drop for Pending<T> {
    fn drop(self) {
        let Pending {
            block: _,
            asker: _,
            ask: _,
            round: _,
            tried: _,
            fetches: _,
            reads: _,
            fetch: _,
        } = self;
    }
}

/// The state of a node. [Node 1]
pub struct NodeState<T> {
    /// The floors: the greatest purge number of each key.
    pub floors: Floors,
    /// The copies held, the most recent first.
    pub copies: Listed<WebCopy<T>>,
    /// The pending requests, at most 1,024, in the order of their blocks.
    pub pending: Listed<Pending<T>>,
    /// The block from which the next request's is looked for. Blocks go round: after 134,217,727
    /// comes 1, and a block that a pending request has is passed over.
    pub next: u32,
    /// Whether the node is closed. A closed node answers every event with `StepFault::Closed`.
    pub closed: bool,
}

impl<T: Drop> Drop for NodeState<T> {
    fn drop(self) {
        let NodeState {
            floors: _,
            copies: _,
            pending: _,
            next: _,
            closed: _,
        } = self;
    }
}

impl<T: Drop> NodeState<T> {
    /// The copies alone.
    pub fn into_copies(self) -> Listed<WebCopy<T>>
        ensures { result ≡ self.copies }
    {
        let NodeState {
            floors: _,
            copies,
            pending: _,
            next: _,
            closed: _,
        } = self;
        copies
    }
}
