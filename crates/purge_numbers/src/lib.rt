//! The floors of a node in a SQLite file: `SqliteFloors`, a store by the contract `FloorStore` of
//! `floor_rules`.
//!
//! `SqliteFloors` owns a connection of the kit's `sqlite`, over any storage that it can write
//! (`Alter`), and keeps a duplicate of the floors in memory beside it. It reads the file in `open`
//! alone. Later the duplicate serves each load, and decides whether a raise needs a statement.
//!
//! | Call | Statements that it runs |
//! |---|---|
//! | `open` of a blank file | makes tables, version and base in one transaction, then as form 2 |
//! | `open` of form 1 | SELECT of version and floors; then adds the base in one transaction |
//! | `open` of form 2 | one SELECT of the version, one of the base, one of all floors |
//! | `raise` that changes nothing | none |
//! | `raise` of a row | one INSERT with ON CONFLICT (SQLite, "UPSERT"), which commits by itself |
//! | `raise` at a full table | DROP and CREATE of both tables, then UPDATE, in one transaction |
//! | `raise_base` that changes nothing | none |
//! | `raise_base` | UPDATE of the base, which commits by itself |
//! | `load`, `failures`, `into_connection` | none |
//!
//! No transaction stays open between calls; a connection with an open one is refused. A raise
//! commits first and then changes the duplicate. If that cannot grow, it returns `NoMemory`
//! although the floor is committed. After `StoreFault`, or `NoMemory` from a raise, of a key or of
//! the base, each raise and load returns `StoreFault` until the file is opened again.
//!
//! The file has three STRICT tables, `form` for the version, `floors`, and `base` for the base;
//! `docs/FORMATS.md` has their text. A file of form 1 has no `base` and the version 1; an open
//! brings it to form 2. The table `form` and the tests of a table's parts are those of
//! `purge_tables`: its definitions (`form_table`, `HasVersion`, `IsFormed`, `Makes`), the calls
//! that make and compare it, and their proofs.
//!
//! Read in this order:
//!
//! 1. `specs/Tables.antt`: the tables, and the floors that rows mean. `specs/Rows.antt`: which rows
//!    are floors, and what a query shows of them.
//! 2. `specs/Making.antt`: how a blank file gets its tables, how form 1 becomes form 2, which files
//!    open, and what an open finds.
//! 3. `specs/Put.antt`: the statements of a raise, and how they fail. `specs/Writing.antt`: what
//!    holds between them. `specs/Faults.antt`: how errors of the database are reported.
//!    `specs/Store.antt`: a connection over a node's file.
//! 4. `src/durable.rt`: the store. `src/opening.rt`: reads the file. `src/making.rt`: makes it, or
//!    brings it to form 2. `src/tables.rt`: compares its schema. `src/rows.rt`: reads its rows.
//!    `src/writing.rt`: a raise. `src/fault.rt`: errors of the database as faults.
//! 5. `proofs/Lib.antt`: the proofs, in order.
//!
//! A third form of the file goes into `specs/Tables`, `specs/Making` and `src/making.rt` with its
//! statements (`proofs/Texts`), and its schema into `src/tables.rt`.
//!
//! A contract sees a `SqliteFloors` as its connection, the duplicate, whether no call has failed,
//! and the count of failures (`Durable`). The crate touches nothing but the connection.
//!
//! Not promised: that an open writes nothing to a file that it refuses. Its floors stay as they
//! were.
#![tactic(auto)]

mod durable;
mod fault;
mod making;
mod opening;
mod rows;
mod tables;
mod writing;

pub use durable::SqliteFloors;
