//! A node that takes steps, and whether they are recorded.
use floor_rules::FloorStore;
use node_book::NodeBook;
use node_core::Node;

/// A node, and whether its steps are recorded.
#[derive(Drop)]
pub(crate) enum Steps<S: FloorStore> {
    /// Its steps are entered in a book.
    Recorded(NodeBook<S>),
    /// No step is kept.
    Alone(Node<(), S>),
}
