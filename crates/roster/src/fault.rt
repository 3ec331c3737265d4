ghost use Rattle.std.specs.Prelude.{◌≡◌};
ghost use Rattle.roster.specs.Faults.{fault_name};

use crate::{TableKind, TextPlace};
use std::alloc::AllocError;
use std::error::Error;
use std::fmt;
use values_tables::TablesFault;

/// Why a text has no roster. The first fault that holds is given, in this order; `NoMemory` may
/// replace any.
#[derive(Clone, Copy, Debug, PartialEq, Eq, Hash)]
pub enum RosterFault {
    /// The text is no TOML document.
    BadToml,
    /// A key is missing, unknown, of another type or out of its range, or no node is founding.
    BadField,
    /// More than 16 nodes, 8 foreign caches, 23 peers of a node or 256 origins.
    TooMany,
    /// Two equal ids, names, UDP addresses (the master's too), HTTP addresses of caches, or origins
    /// of one host and port.
    DoubleAddress,
    /// A node names a peer that no entry has, itself, or one peer twice.
    UnknownPeer,
    /// Going from some member to a parent, and on, leads back to that member.
    ParentLoop,
    /// An allocation failed.
    NoMemory,
}

impl RosterFault {
    /// The name that scripts print: the name of the variant.
    pub const fn name(self) -> &'static str
        ensures { result.now ≡ fault_name self }
    {
        match self {
            RosterFault::BadToml => "BadToml",
            RosterFault::BadField => "BadField",
            RosterFault::TooMany => "TooMany",
            RosterFault::DoubleAddress => "DoubleAddress",
            RosterFault::UnknownPeer => "UnknownPeer",
            RosterFault::ParentLoop => "ParentLoop",
            RosterFault::NoMemory => "NoMemory",
        }
    }
}

impl RosterFault {
    /// This fault at a place.
    pub(crate) fn at(self, place: TextPlace) -> RosterError
        ensures { result.fault ≡ self }
    {
        RosterError { fault: self, place }
    }
}

impl From<AllocError> for RosterError {
    ghost use Rattle.roster.specs.declared.fault.RosterFault.TheVariants.{NoMemory};

    ghost from_gives = { λ _ error. error.fault ≡ NoMemory };

    fn from(_error: AllocError) -> RosterError {
        RosterFault::NoMemory.at(place(TableKind::Top, 0, ""))
    }
}

impl From<TablesFault> for RosterError {
    ghost use Rattle.roster.specs.Faults.{fault_of};

    ghost from_gives = { λ fault error. error.fault ≡ fault_of fault };

    fn from(fault: TablesFault) -> RosterError {
        match fault {
            TablesFault::BadToml(at) => RosterFault::BadToml.at(at),
            TablesFault::BadField(at) => RosterFault::BadField.at(at),
            TablesFault::NoMemory => RosterFault::NoMemory.at(place(TableKind::Top, 0, "")),
        }
    }
}

/// A place by its table, the number of its entry and its key.
pub(crate) fn place(table: TableKind, entry: usize, key: &'static str) -> TextPlace {
    TextPlace {
        table,
        entry,
        peer: 0,
        key,
        line: None,
    }
}

/// Why a text has no roster, and where it is wrong. It prints as one sentence.
#[derive(Clone, Copy, Debug, PartialEq, Eq)]
pub struct RosterError {
    /// The fault.
    pub fault: RosterFault,
    /// Where it is; without meaning if there was no memory.
    pub place: TextPlace,
}

impl fmt::Display for RosterError {
    fn fmt<W: fmt::Write>(&self, f: &mut fmt::Formatter<W>) -> fmt::Result {
        write_table(f, self.place)?;
        if self.fault == RosterFault::BadField && self.place.key.is_empty() {
            let keys = keys_of(self.place.table);
            return write!(f, "it is missing, or has a key that is none of {keys}");
        }
        f.write_str(match self.fault {
            RosterFault::BadToml => "the text is no TOML document",
            RosterFault::BadField =>
                "a key is missing, unknown, of another type or out of its range",
            RosterFault::TooMany => "there are too many of these",
            RosterFault::DoubleAddress => "this stands also in another table",
            RosterFault::UnknownPeer => "no other entry has this id, or it is named twice",
            RosterFault::ParentLoop => "its parents lead back to where they began",
            RosterFault::NoMemory => "there was no memory",
        })
    }
}

impl Error for RosterError {}

/// The keys that a table of this kind may have, for the person who misspelled one.
fn keys_of(kind: TableKind) -> &'static str {
    match kind {
        TableKind::Top => {
            "default_lifetime, copies, bytes, query_wait, answer_wait, fetch_wait, ask_wait, \
             fetches_per_address, clients_per_address, master, node, foreign, origin"
        }
        TableKind::Master => "address, htcp",
        TableKind::Node => "id, name, address, http, icp, htcp, joins, peer",
        TableKind::Peer => "id, role, by",
        TableKind::Foreign => "id, name, address, http, icp, htcp",
        TableKind::Origin => "host, port, address, connect",
    }
}

/// Writes where a fault is: the table, its number, the key and the line.
fn write_table<W: fmt::Write>(f: &mut fmt::Formatter<W>, place: TextPlace) -> fmt::Result {
    f.write_str(match place.table {
        TableKind::Top => "roster",
        TableKind::Master => "[master]",
        TableKind::Node => "[[node]]",
        TableKind::Peer => "[[node.peer]]",
        TableKind::Foreign => "[[foreign]]",
        TableKind::Origin => "[[origin]]",
    })?;
    if place.peer > 0 {
        write!(f, " {} of node", place.peer)?;
    }
    if place.entry > 0 {
        write!(f, " {}", place.entry)?;
    }
    if !place.key.is_empty() {
        write!(f, ", key `{}`", place.key)?;
    }
    if let Some(line) = place.line {
        write!(f, ", line {line}")?;
    }
    f.write_str(": ")
}
