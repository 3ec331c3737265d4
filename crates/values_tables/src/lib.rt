//! Reads the text of a roster, the configuration of a hierarchy, into plain data. The text is a
//! TOML 1.1 document. Each TOML key is checked alone: its table, type and range. Whether the tables
//! fit together is judged by the crate `roster`.
//!
//! - [`Tables`]: the whole text, read by `Tables::read`: [`Limits`], the master's address, and
//!   lists of [`Member`], [`Cache`] (foreign caches) and [`Origin`]. A member has [`Peer`]s, each
//!   with a [`Role`] and a protocol. A contract sees each type field by field.
//! - [`TablesFault`]: why a text has no tables; [`TextPlace`] and [`TableKind`]: where it is wrong.
//!
//! To read, in this order:
//!
//! 1. `specs/Keys.antt`: the TOML keys of each table. `specs/Ranges.antt`: the ranges
//!    (`are_tables`). `specs/Roles.antt`: sibling and parent.
//! 2. `specs/Reading.antt`: what a document says (`tables_in`). `specs/Fault.antt`: what a fault
//!    says of the text.
//! 3. `src/plain.rt`: the types, with units and ranges.
//! 4. `src/read.rt`: the whole document. `src/entries.rt`: each kind of table. `src/fields.rt`: one
//!    TOML key. `src/place.rt`, `src/fault.rt`.
//! 5. `proofs/Lists.antt`, `proofs/Ips.antt`.
//!
//! No contract says where a fault is said to be; tests show it. The crate reads no file: the
//! text is passed in.
#![tactic(auto)]

mod entries;
mod fault;
mod fields;
mod place;
mod plain;
mod read;

pub use fault::TablesFault;
pub use place::{TableKind, TextPlace};
pub use plain::{Cache, Limits, Member, Origin, Peer, Role, Tables};
