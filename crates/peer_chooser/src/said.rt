use roster::Peer;

/// What a peer answers to a query (RFC 2186, "ICP Opcodes"; RFC 2756, "TST").
#[derive(Clone, Copy, Debug, PartialEq, Eq)]
pub enum Said {
    /// It has a copy, with this purge stamp if it told one.
    Hit(Option<u32>),
    /// It has no copy. If it is a parent, it would fetch one.
    Miss,
    /// It serves nothing: it has no copy, and would not fetch one even as a parent.
    NoFetch,
}

/// A peer's first answer to a round.
#[derive(Clone, Copy, Debug, PartialEq, Eq)]
pub struct FirstAnswer {
    /// Who answered.
    pub peer: Peer,
    /// What it answered.
    pub said: Said,
}

/// Where a request goes next.
#[derive(Clone, Copy, Debug, PartialEq, Eq)]
pub enum Source {
    /// Nowhere yet: some peer may still answer.
    Wait,
    /// To this peer.
    Peer {
        /// The peer's id.
        id: u8,
        /// Whether the request bears `only-if-cached` (RFC 9111, section 5.2.1.7): true exactly of
        /// a sibling.
        only_if_cached: bool,
    },
    /// To the origin.
    Origin,
}
