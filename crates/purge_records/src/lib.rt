//! The purges of a master in a SQLite file: `SqlitePurges`, a store by the contract `PurgeStore` of
//! `purge_rules`.
//!
//! `SqlitePurges` owns a connection of the kit's `sqlite`, over any storage that it can write
//! (`Alter`), and keeps a duplicate of the purges in memory beside it. It reads the file in
//! `open` alone. Later `load` returns a duplicate of it, and only a change runs statements.
//!
//! | Call | Statements that it runs |
//! |---|---|
//! | `open` of a blank file | makes tables, version and number in one transaction, then as form 2 |
//! | `open` of form 1 | one SELECT of each of four tables; then adds `admitted` in a transaction |
//! | `open` of form 2 | one SELECT of each of the five tables |
//! | `add` | in one transaction: UPDATE of the last number, INSERT of the purge |
//! | `admit` | in one transaction: UPDATE of the last number, INSERT of the admission |
//! | `mark` | INSERT of the acknowledgement, which commits by itself |
//! | `finish` | in one transaction: DELETE of acknowledgements and purge, UPDATE of the admission |
//! | `load`, `failures`, `into_connection` | none |
//!
//! No transaction stays open between calls; a connection with an open one is refused. If a
//! statement fails, its transaction rolls back. A change is made in the duplicate first and
//! then committed. If that fails, the duplicate may be ahead of the file. So after `StoreFault`, or
//! `NoMemory` from a call that writes, each call but `failures` and `into_connection` returns
//! `StoreFault` until the file is opened again.
//!
//! The file has five STRICT tables: `form` for the version, `last`, `pending`, `acks` and
//! `admitted`; `docs/FORMATS.md` has their text. A purge that is done has no row; an admission that
//! is done keeps its own. A file of form 1 has no `admitted` and the version 1; an open brings it
//! to form 2. The table `form` and the tests of a table's parts are those of `purge_tables`: its
//! definitions (`form_table`, `HasVersion`, `IsFormed`, `Makes`), the calls that make and compare
//! it, and their proofs.
//!
//! Read in this order:
//!
//! 1. `specs/Tables.antt`: the tables, the purges and admissions that rows mean (`purges_in`), and
//!    which rows may stand there (`AreTables`). `specs/Rows.antt`: what a query shows of rows, and
//!    reading one after another.
//! 2. `specs/Store.antt`: a connection over a master's file. `specs/Making.antt`: how a blank file
//!    gets its tables, how form 1 becomes form 2, which files open, and what an open finds.
//! 3. `specs/Writing.antt`: what holds between the statements of a transaction.
//!    `specs/Faults.antt`: how errors of the database are reported.
//! 4. `src/durable.rt`: the store. `src/opening.rt`: opens and reads the file. `src/making.rt`:
//!    makes it, or brings it to form 2. `src/tables.rt`: compares its schema. `src/rows.rt`: reads
//!    its rows. `src/writing.rt`: `add`, `admit`, `mark` and `finish`. `src/fault.rt`: errors of
//!    the database as faults.
//! 5. `proofs/Lib.antt`: the proofs, in order.
//!
//! A third form of the file goes into `specs/Tables`, `specs/Making`, `src/making.rt` and
//! `src/opening.rt` with their statements (`proofs/Texts`), and its schema into `src/tables.rt`.
//!
//! A contract sees a `SqlitePurges` as its connection, the duplicate, whether no call has failed,
//! and the count of failures (`Durable`). The crate touches nothing but the connection.
//!
//! Not promised: that `StoreFault` from a write has its cause in the database. The contract demands
//! only that `failures` rises or stands at its maximum.
#![tactic(auto)]

mod durable;
mod fault;
mod making;
mod opening;
mod rows;
mod tables;
mod writing;

pub use durable::SqlitePurges;
