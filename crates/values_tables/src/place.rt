ghost use Rattle.values_tables.specs.Fault.{IsBadField};

use crate::TablesFault;

/// A kind of table in the text of a roster.
#[derive(Clone, Copy, Debug, PartialEq, Eq)]
pub enum TableKind {
    /// The keys above the first header.
    Top,
    /// `[master]`.
    Master,
    /// A `[[node]]`.
    Node,
    /// A `[[node.peer]]`.
    Peer,
    /// A `[[foreign]]`.
    Foreign,
    /// An `[[origin]]`.
    Origin,
}

/// Where the text of a roster is wrong, for the person who has to correct it.
#[derive(Clone, Copy, Debug, PartialEq, Eq)]
pub struct TextPlace {
    /// The kind of the table.
    pub table: TableKind,
    /// Which table of its kind, from 1; for a peer, which node. 0 if there is only one such table,
    /// or no single one is meant.
    pub entry: usize,
    /// Which peer of the node, from 1. 0 if none is meant.
    pub peer: usize,
    /// The key, empty if none is meant.
    pub key: &'static str,
    /// The line of the text, from 1, if it is known.
    pub line: Option<usize>,
}

impl TextPlace {
    /// All tables of this kind.
    pub(crate) fn of(table: TableKind) -> TextPlace {
        TextPlace {
            table,
            entry: 0,
            peer: 0,
            key: "",
            line: None,
        }
    }

    /// The peers of the node at this place.
    pub(crate) fn peers(self) -> TextPlace {
        TextPlace {
            table: TableKind::Peer,
            ..self
        }
    }

    /// The table of this index, from 0, of the kind at this place.
    pub(crate) fn item(self, index: usize) -> TextPlace {
        let count = index.saturating_add(1);
        match self.table {
            TableKind::Peer => TextPlace {
                peer: count,
                ..self
            },
            _ => TextPlace {
                entry: count,
                ..self
            },
        }
    }

    /// The fault `BadField`, at a key of this place.
    pub(crate) fn fault_at(self, key: &'static str) -> TablesFault
        ensures { IsBadField result }
    {
        TablesFault::BadField(TextPlace { key, ..self })
    }
}
