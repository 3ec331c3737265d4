//! Which key a text has, as a function that computes: `key_of`. No program calls it; proofs do.
//!
//! `url_key` says which key or first fault a text has by a relation, `HasKey`, that rests on the
//! grammar of URIs. Here the same is a function. So a text has one outcome and no other, and the
//! condition `GivesKeys`, under which a node's definitions are used, is met: `key_of` meets it.
//!
//! To read, in this order:
//!
//! 1. `specs/Tests.antt`: the grammar of `http_uri` as tests.
//! 2. `specs/UriIn.antt`: `uri_in` cuts a text where a scheme and an authority end, and so finds
//!    the one URI that the text spells.
//! 3. `specs/KeyOf.antt`: `outcome_of` gives the key or the first fault, `key_of` the key if there
//!    is one.
//! 4. `src/laws.rt`: the laws, and worked examples.
//! 5. `proofs/Tested.antt`, `proofs/Spelled.antt`, `proofs/Outcomes.antt`: one for each of the
//!    three files of `specs`.
//!
//! The public functions have empty bodies, so a wrong body could not change what is proved: the
//! crate has no must-fail edits. It touches nothing.
#![tactic(auto)]

pub mod laws;
