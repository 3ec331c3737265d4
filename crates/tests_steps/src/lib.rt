//! Tests of a node's steps. They need a caller of the crates: it makes each call with ample memory,
//! which no contract says succeeds, and sees tags, serials and states.
#![tactic(auto)]

#[cfg(test)]
mod steps;
