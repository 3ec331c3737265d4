//! Keys: the canonical texts of http URLs. Caches store copies under keys and purge by keys.
//!
//! Two URLs share one key if they differ only in these points (RFC 9110, section 4.2.3):
//!
//! - the case of the scheme or the host,
//! - whether port 80 is written, or a `:` without a port, and leading zeros of the port,
//! - whether an empty path is written as `/`.
//!
//! A key is `http://`, the host in lower case, `:` and the port unless it is 80, the path, and `?`
//! with the query if there is one.
//!
//! Two equivalences of RFC 3986, section 6.2.2 are not applied: percent-encoded octets stay as they
//! came, so `/~a` and `/%7Ea` have two keys; and `.` and `..` stay in paths.
//!
//! - [`Key`]: read from a text by [`Key::read`]. `text`, `host`, `port`, `authority` and
//!   `path_and_query` allocate nothing. Keys compare, order and hash as their texts.
//! - [`KeyFault`]: why a text has no key, in the order of the tests.
//! - [`LONGEST_KEY`]: the limit of 1,024 octets.
//!
//! A contract sees a `Key` as the list of its octets. The invariant of the type is `IsKey`: the
//! text, read again, gives this same key.
//!
//! To read, in this order:
//!
//! 1. `specs/Text.antt`: host and port of an authority, and the text of a key (`canonical_text`).
//! 2. `specs/Key.antt`: which text has which key or first fault (`HasKey`), what a key is
//!    (`IsKey`), and what it keeps of the text (`KeepsParts`). `specs/Fault.antt` has the names of
//!    faults.
//! 3. `src/key.rt`: `Key` and the order of the tests. `src/text.rt` cuts an authority and writes a
//!    key. `src/fault.rt` has the faults.
//! 4. `src/plain.rt` with `specs/Plain.antt`: a text that one pass shows to be a key is copied, and
//!    not cut into its parts.
//! 5. `proofs/KeyLemmas.antt`: a key that was read reads as itself. `proofs/PlainKeyLemmas.antt`:
//!    the same of texts that pass `specs/Plain.antt`.
//!
//! The crate `http_uri` cuts all other texts; its grammar is near that of RFC 3986 and not the
//! same. `values_keys` has the definition of `specs/Key.antt` as a function. This crate resolves no
//! name and touches no file, socket, clock or thread.
#![tactic(auto)]

mod fault;
mod key;
mod plain;
mod text;

pub use fault::KeyFault;
pub use key::{Key, LONGEST_KEY};
