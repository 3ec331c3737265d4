//! What the SQLite files of purges share: the table `form`, which holds the version of a file, and
//! the comparison of a schema with the wanted one, part by part.
//!
//! Two files begin with the table `form`: that of a node (`purge_numbers`) and that of a master
//! (`purge_records`). Each opens only if its schema is exactly the wanted one.
//!
//! - [`create_form`] makes the table `form`, in an open transaction.
//! - [`is_blank`] tests whether a schema is empty, [`is_form`] whether a table is `form`, and
//!   [`is_version`] whether the rows that were read from it are a version.
//! - [`is_named`], [`is_column`], [`is_place`], [`is_unique_place`], [`has_rowid`],
//!   [`has_rowid_key`], [`is_plain_order`], [`has_no_terms`] and [`is_plain`] compare the parts of
//!   a table.
//! - [`is_equal_at`], [`is_range_at`] and [`is_either_at`] compare a CHECK.
//!
//! Each test has two clauses: what holds if it answers yes, and what if it answers no.
//!
//! Read in this order:
//!
//! 1. `specs/Tables.antt`: the table `form`, the schemas of a blank file and of a file with `form`
//!    alone, and CHECKs. `specs/Rows.antt`: which version its rows mean. `specs/Making.antt`: how a
//!    blank file gets it.
//! 2. `src/form.rt`: the table `form`. `src/parts.rt`: the parts of a table. `src/checks.rt`: a
//!    CHECK and its nodes.
//! 3. `proofs/Lib.antt`: the proofs, in order. The proofs of both files cite most of them.
//!
//! The text of `form` is the same in each version of a file. `HasVersion` (`specs/Rows`) takes the
//! version that its row names.
//!
//! Nothing here allocates. Only `create_form` runs a statement; it touches nothing but the
//! connection of its transaction.
//!
//! Not promised: that an error of `create_form` has its cause in the database, and what its count
//! of rows is.
#![tactic(auto)]

mod checks;
mod form;
mod parts;

pub use checks::{is_either_at, is_equal_at, is_range_at};
pub use form::{create_form, is_blank, is_form, is_version};
pub use parts::{
    has_no_terms, has_rowid, has_rowid_key, is_column, is_named, is_place, is_plain,
    is_plain_order, is_unique_place,
};
