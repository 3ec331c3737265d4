//! Writes HTTP/1.1 requests and responses to peers, origins and clients (RFC 9112). The caller
//! passes the writer.
//!
//! - [`write_ask`] writes a request, with the target in the form that a cache or an origin takes
//!   ([`AskForm`]).
//! - [`write_answer`] writes a response as it stands.
//! - [`write_served`] writes a stored response with the age and the stamp of the moment.
//! - [`write_status`] writes a response of a status alone.
//! - [`is_name`] tests a name for the `via` field; each call above requires one that passes.
//!
//! Each call writes straight to the writer, line by line, and does not allocate. It returns `Io`
//! where the writer failed, and no other fault; then a proper front of the text was written. Where
//! contracts know the octets of the writer, they say exactly this. The texts are `ask_text` of
//! `specs/Ask` and `answer_text` of `specs/Answer`; `specs/Served` says which response
//! `write_served` and `write_status` write.
//!
//! Every message has `connection: close` (RFC 9112, section 9.6), so a connection carries one
//! exchange.
//!
//! Not promised: the trait of writing counts no failures, so a body that always returned `Io`
//! would meet each contract. Tests show that `Io` comes only where the writer failed. That the
//! texts are read back as the same messages is proved in `peer_fetch`.
//!
//! Read first `specs/Lines`, `specs/Ask` and `specs/Answer`, then `src/ask.rt`, `src/answer.rt`
//! and `src/served.rt`; `src/lines.rt` has the lines that they share. The proofs only chain the
//! pieces of a text (`proofs/Stops`: a piece that failed).
#![tactic(auto)]

mod answer;
mod ask;
mod lines;
mod name;
mod served;

pub use answer::write_answer;
pub use ask::{AskForm, write_ask};
pub use name::is_name;
pub use served::{write_served, write_status};
