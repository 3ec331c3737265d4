//! A test of the longest body of a response that is cut at each octet. It needs a caller of the
//! crates, who passes in such readers. The gate proves it: without a proof, with its checks of each
//! access, it takes over five minutes, and proved a few seconds.
#![tactic(auto)]

#[cfg(test)]
mod cut;
