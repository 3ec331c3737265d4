//! Tests of script lines over many readers and writers, of the simulated world, of worked runs of a
//! master, and of a master and a node whose store fails. They need a caller of the crates: it
//! passes in readers, writers and stores that fail, events that no line of a script can say, and
//! sees each answer and each entry.
#![tactic(auto)]

#[cfg(test)]
mod events;
#[cfg(test)]
mod failing;
#[cfg(test)]
mod full;
#[cfg(test)]
mod lines;
#[cfg(test)]
mod masters;
#[cfg(test)]
mod nodes;
#[cfg(test)]
mod setting;
#[cfg(test)]
mod words;
#[cfg(test)]
mod worlds;
