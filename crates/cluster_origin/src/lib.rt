//! An origin server for trials: it answers HTTP requests one after another, each with the path
//! asked for and a count.
//!
//! [`answer_to`] is the response to a request (`specs/Answer.antt`). [`serve_next`] reads a request
//! and writes its response or its refusal (`specs/Serving.antt`, `specs/Statuses.antt`).
//! [`run_origin`] does so at a port until a given number of requests is answered; it reads a
//! request of HTTP/1.2 to HTTP/1.9 as one of HTTP/1.1. A slow or silent client occupies it for five
//! seconds at most.
//!
//! Order of reading: the three specs; `src/answering.rt`, `src/refusing.rt`, `src/serving.rt`;
//! `src/front.rt`, `src/origin.rt` (the listener and its connections); `src/fault.rt`,
//! `specs/Names.antt`; `proofs/Answers.antt`.
//!
//! `run_origin` opens a listener, serves its connections on the caller's thread, and reads the
//! clock. The other calls touch only the reader and the writer that are passed in.
//!
//! The traits of reading and writing count no failures. So a body of `serve_next` that answers `Io`
//! or `NoMemory` at once, or leaves out the text of a refusal, meets its contract; tests show that
//! these faults come only where the reader or the writer failed. No contract says what comes over a
//! socket: tests show what `run_origin` does with its connections.
#![tactic(auto)]

mod answering;
mod fault;
mod front;
mod origin;
mod refusing;
mod serving;

pub use answering::answer_to;
pub use fault::OriginFault;
pub use origin::run_origin;
pub use serving::serve_next;
