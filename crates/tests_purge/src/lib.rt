//! Tests of floors and purges in memory and in files on disks that stop after a chosen number of
//! calls. They need a caller of the crates: it passes in such disks, and opens again what they
//! left.
#![tactic(auto)]

#[cfg(test)]
mod calls;
#[cfg(test)]
mod disks;
#[cfg(test)]
mod floors;
#[cfg(test)]
mod purges;
#[cfg(test)]
mod records;
