//! Whether a shared cache stores a response, and for how long the copy is fresh (RFC 9111,
//! sections 3, 4.2 and 5.2.2). Nothing here allocates, and the caller passes the time.
//!
//! - [`lifetime`] gives the freshness lifetime of a response, or says that it is not stored.
//! - [`is_fresh`] compares the age of a copy with its lifetime.
//! - [`members_are_exact`] is `http_lists`' law that field values are cut as the grammar of lists
//!   has it.
//!
//! The rules are this product's profile of RFC 9111, stricter than the RFC in these points: six
//! statuses only; a response with `vary` is not stored; `no-cache` and `private` forbid storing
//! even with a value; a quoted string that is not closed, or begins where none may, forbids it;
//! without `max-age` and `s-maxage`, a response with `expires` is not stored, since no date is
//! read. The request is not looked at: that a request with credentials is refused is
//! `http_reading`'s rule.
//!
//! Read first `specs/Lifetime` (the lifetime, by cases) and `specs/Freshness` (one comparison),
//! then `specs/Directives` (the `cache-control` directives of a response). In the code,
//! `src/lifetimes.rt` queries an iterator over directives (`src/directive.rt`), which
//! contracts see by `specs/Left`.
#![tactic(auto)]

mod directive;
mod freshness;
mod lifetimes;

pub use freshness::is_fresh;
pub use http_lists::members_are_exact;
pub use lifetimes::lifetime;
