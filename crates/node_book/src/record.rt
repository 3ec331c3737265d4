//! What is kept of a book.
use crate::NodeEntry;
use node_rules::NodeState;
use roster::Listed;

/// The steps of a node from one of its states to another.
pub struct Record {
    /// The node's id.
    pub node: u8,
    /// Its state before the first entry.
    pub opening: NodeState<()>,
    /// The steps, in order.
    pub entries: Listed<NodeEntry>,
    /// Its state after the last entry.
    pub closing: NodeState<()>,
}

impl Drop for Record {
    fn drop(self) {
        let Record {
            node: _,
            opening: _,
            entries: _,
            closing: _,
        } = self;
    }
}
