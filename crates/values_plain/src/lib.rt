//! Values that every room uses: octets, lists, addresses, and texts that are written.
//!
//! - [`Octets`]: an owned list of octets. A contract sees it as the list of their values.
//! - [`split_counted`]: reads a counted text, a length of two octets and that many octets. RFC 2756
//!   calls it a COUNTSTR; the object of an ICP HIT_OBJ has the same form (RFC 2186).
//! - [`Listed`]: a list that does not change. A contract sees it as a list.
//! - [`Address`]: an IPv4 address and a port. [`Udp`]: ICP or HTCP.
//! - [`write_text`]: writes a whole text to any writer. After a failure the writer has a front of
//!   the text, and not all of it.
//!
//! To read, in this order:
//!
//! 1. `specs/Fields.antt`: what a list of octets is (`IsOctets`).
//! 2. `specs/Counted.antt`: how a counted text is written (`counted`) and read (`split_counted`).
//! 3. `specs/Laws.antt`: what is written is read back, for counted texts and for the numbers of the
//!    crate `byteorder`. The proofs of the codecs cite it.
//! 4. `specs/Writing.antt`: what a call leaves in its writer (`Writes`). `proofs/Laws.antt`: texts
//!    that are written one after another are joined. Crates that write a text in several calls cite
//!    it.
//! 5. `specs/Sockets.antt`: addresses as the system takes and gives them.
//! 6. `src/octets.rt`, `src/counted.rt`, `src/listed.rt`, `src/address.rt`, `src/write.rt`.
//!
//! A contract sees the octets that a writer has, if they are known, and not its failures. So a body
//! that gives [`WriteFailed`] at once would meet the contract. Tests show that it comes only if the
//! writer fails.
//!
//! It touches only the writer that is passed in, and no file, socket, clock or thread.
#![tactic(auto)]

mod address;
mod counted;
mod listed;
mod octets;
mod write;

pub use address::{Address, Udp};
pub use counted::split_counted;
pub use listed::Listed;
pub use octets::Octets;
pub use write::{WriteFailed, write_text};
