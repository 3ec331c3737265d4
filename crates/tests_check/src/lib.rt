//! Tests of the check of recorded runs: verdicts on runs made by hand, and on over a thousand
//! changes of a recorded run. They need a caller of `run_check`: no script can hand the check a run
//! with a chosen flaw.
#![tactic(auto)]

#[cfg(test)]
mod admissions;
#[cfg(test)]
mod bases;
#[cfg(test)]
mod calls;
#[cfg(test)]
mod causes;
#[cfg(test)]
mod changes;
#[cfg(test)]
mod court;
#[cfg(test)]
mod events;
#[cfg(test)]
mod first;
#[cfg(test)]
mod full;
#[cfg(test)]
mod judged;
#[cfg(test)]
mod made;
#[cfg(test)]
mod places;
#[cfg(test)]
mod restarts;
#[cfg(test)]
mod runs;
#[cfg(test)]
mod sent;
#[cfg(test)]
mod wanted;
