ghost use Rattle.std.specs.Prelude.{◌≡◌, [], None};
ghost use Rattle.node_rules.specs.declared.state.Fetch.TheVariants.{Nowhere};

use node_rules::Fetch;
use peer_chooser::Round;
use roster::Listed;
use std::alloc::Global;

/// How far a pending request is: the parts of it that change.
#[derive(Drop)]
pub struct Progress<T> {
    /// The round of queries to the node's peers, if there is one.
    pub round: Option<Round>,
    /// The peers whose fetch failed or whose response was not used.
    pub tried: Listed<u8>,
    /// How many fetches were begun for it, at most 26.
    pub fetches: u8,
    /// How many of them were origin reads, at most 3.
    pub reads: u8,
    /// The present fetch.
    pub fetch: Fetch<T>,
}

impl<T> Progress<T> {
    /// How far a new request without a round is. Allocates nothing.
    pub fn new(alloc: Global) -> Progress<T>
        ensures { result ≡ record {
          round = None;
          tried = [];
          fetches = 0;
          reads = 0;
          fetch = Nowhere;
        } }
    {
        Progress {
            round: None,
            tried: Listed::new(Vec::new(alloc)),
            fetches: 0,
            reads: 0,
            fetch: Fetch::Nowhere,
        }
    }
}
