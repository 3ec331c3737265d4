//! Reads HTTP/1.1 requests and responses from any reader (RFC 9112), and says what the fields of
//! their heads mean for a cache (RFC 9110, sections 5 and 7.6.1; RFC 9111, sections 5.1 and 5.2.1;
//! RFC 9112, sections 3.2 and 6). The octets come by `http_intake`.
//!
//! - [`read_ask`] reads a request: a head, and no body (`src/ask.rt`).
//! - [`lower_version`] has a request of HTTP/1.2 to HTTP/1.9 be read as one of HTTP/1.1
//!   (`src/version.rt`).
//! - [`read_answer`] reads a response: it passes over interim heads, then reads a final head and
//!   its body (`src/answer.rt`, `src/told.rt`: what a head says, `src/body.rt`).
//! - [`lower_versions`] does for responses, and the interim ones before them, what `lower_version`
//!   does for requests (`src/answer_versions.rt`).
//!
//! Both take the reader from the caller, and read one message. Octets after the message may be
//! taken from the reader and are lost, so a connection carries one exchange. There is no clock: a
//! call lasts as long as its reader blocks.
//!
//! Their contracts say that the octets taken begin with a message, by the grammar of RFC 9112 and
//! the rules over its fields (`ReadsAsk` of `specs/Asks`, `ReadsAnswer` of `specs/Answers`), and
//! that at most 70,000 calls of the reader gave them. For each fault but `Io` and `NoMemory` they
//! say what held of the octets; `TooManyTurns` comes only where 70,000 calls gave octets and not
//! the whole message. A whole head gives its first fault in a stated order (`specs/AskHead`,
//! `specs/AnswerHead`).
//!
//! The functions on fields read nothing. Each takes `window`, the octets of a head, and `headers`,
//! the offsets of its fields there, as `httparse::spans` finds them. It matches names ignoring case
//! (RFC 9110, section 5.1). Of them only [`kept_fields`] allocates.
//!
//! - Fields of one name: [`count_named`], [`first_named`], [`only_named`] (`src/fields.rt`).
//! - Body length: [`framing_of`] of a response, from [`content_length`] and [`is_chunked`];
//!   [`ask_has_body`] of a request (`src/framing.rt`, `src/codings.rt`).
//! - A request: [`host_of`], [`has_credentials`], [`member`] (`src/ask_fields.rt`),
//!   [`is_only_if_cached`] and [`is_no_cache`] (`src/directives.rt`).
//! - A response: [`age`] and [`stamp`] (`src/answer_fields.rt`), and the fields that it keeps,
//!   [`kept_fields`] (`src/kept.rt`).
//!
//! Their contracts are rules over one list, the names and values of the fields (`fields_of` of
//! `specs/Fields`); other files of `specs/` have the rules, under the names of the files of `src/`.
//! `specs/Uri` says which octets a URI has (`src/uri.rt`), `specs/Decimal` how numbers are written,
//! and `specs/Left` what contracts see of the iterator over the values of a name.
//!
//! Read first `specs/Fields`, `specs/Framing` and `specs/Kept`; then `specs/Asks` with
//! `specs/AskHead` and `src/ask.rt`, and `specs/Answers` with `specs/AnswerHead` and
//! `src/answer.rt`. The hardest proof is `proofs/HeadFields`: what the parser accepts as a field
//! can be kept.
//!
//! Not promised: the trait of reading counts no failures, so a body that always returned `Io`
//! would meet both contracts. Tests show that `Io` comes only where the reader failed. `NoMemory`
//! may come from any call that allocates. The `cache-control` of a response is not read here
//! (`reuse_rules`).
#![tactic(auto)]

mod answer;
mod answer_fields;
mod answer_versions;
mod ask;
mod ask_fields;
mod body;
mod codings;
mod decimal;
mod directives;
mod fields;
mod framing;
mod kept;
mod told;
mod uri;
mod version;

pub use answer::read_answer;
pub use answer_fields::{age, stamp};
pub use answer_versions::lower_versions;
pub use ask::read_ask;
pub use ask_fields::{Host, has_credentials, host_of, member};
pub use directives::{is_no_cache, is_only_if_cached};
pub use fields::{count_named, first_named, only_named};
pub use framing::{
    BadCoding, BadLength, Framing, ask_has_body, content_length, framing_of, is_chunked,
};
pub use kept::kept_fields;
pub use version::lower_version;
