//! Notes. A track of notes is held as a list whose last note is the next one.
ghost use Rattle.std.specs.Prelude.{◌≡◌};
ghost use Rattle.run_rules.specs.Notes.{place_in, rank_by};
ghost use Rattle.run_notes.specs.Held.{note_of};

use floor_rules::Floors;
use node_book::NodeEntry;
use node_rules::NodeState;
use purge_master::MasterEntry;

/// One item of a recorded run. It refers to the records and entries, and copies nothing.
#[derive(Clone, Copy)]
pub enum Note<'a> {
    /// A record of a member opens.
    Opens {
        /// The member's id, as the record has it.
        node: u8,
        /// The member's state.
        state: &'a NodeState<()>,
    },
    /// A record of a member has an entry.
    Steps {
        /// The member's id, as the record has it.
        node: u8,
        /// The entry.
        entry: &'a NodeEntry,
        /// Whether the next item of its records tells that the node is closed after the entry.
        is_closed: bool,
        /// The floors of the next of its records that opens with an open node; if there is none,
        /// those with which this record closes.
        kept: &'a Floors,
    },
    /// A record of a member closes.
    Closes {
        /// The member's id, as the record has it.
        node: u8,
        /// The place of the record's last entry, 0 if it has none.
        place: u64,
        /// The member's state.
        state: &'a NodeState<()>,
    },
    /// The master's list has an entry.
    Calls {
        /// The entry.
        entry: &'a MasterEntry,
        /// Whether the next entries tell that the master is closed after this one.
        is_closed: bool,
    },
}

impl Note<'_> {
    /// Returns the note's place. An opening and a closing have none.
    pub fn place(&self) -> Option<u64>
        ensures { result ≡ place_in (note_of self.now) }
    {
        match self {
            Note::Opens { .. } | Note::Closes { .. } => None,
            Note::Steps { entry, .. } => Some(entry.place),
            Note::Calls { entry, .. } => Some(entry.place),
        }
    }

    /// Returns the note's rank: 0 (at once) if it has no place, else its place plus 1.
    pub(crate) fn rank(&self) -> u128
        ensures { result ≡ rank_by (place_in (note_of self.now)) }
    {
        match self.place() {
            None => 0,
            Some(place) => u128::from(place) + 1,
        }
    }
}
