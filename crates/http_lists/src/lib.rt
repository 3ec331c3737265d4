//! Field values that are lists (RFC 9110, section 5.6.1), cut into their members. Nothing here
//! allocates.
//!
//! - [`members_of`] iterates over the members of a value ([`Members`]). A comma outside quoted
//!   strings separates two members.
//! - [`member_length`] says where the first member ends, for a caller that walks the value itself.
//! - [`is_well_quoted`] says whether each quoted string of a value is closed, and begins where one
//!   may.
//! - [`trim`] removes spaces and tabs at both ends of a text (RFC 9110, section 5.6.3).
//! - [`members_are_exact`] is a law without code: the cut gives the members by the grammar of
//!   lists and quoted strings, and no other list of members fits the grammar.
//!
//! Members keep the blanks around them, and empty members are given too. Trimming them and ignoring
//! empty ones (RFC 9110, section 5.6.1.2) is left to the caller. A quoted string that is not closed
//! goes up to the end of the value. Comments in parentheses (section 5.6.5)
//! get no special treatment.
//!
//! Read first `specs/Members` (`members`: the cut, octet by octet) and `specs/Cut` (`HasMembers`:
//! the grammar), then `src/members.rt`. `specs/Blanks` defines `trim`; `specs/Left` says what
//! contracts see of `Members`: the members that it has still to give. `proofs/Grammar` proves the
//! law.
#![tactic(auto)]

mod blanks;
mod laws;
mod members;

pub use blanks::trim;
pub use laws::members_are_exact;
pub use members::{Members, is_well_quoted, member_length, members_of};
