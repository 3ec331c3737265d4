//! Runs in which the floors of one state have a base that the run does not give them.
use crate::events::{A, Called, Met};
use crate::judged::verdict;
use crate::made::{Call, Said, Shift, Step, Told, calls_of, records_of};
use node_book::Record;
use node_rules::StepFault;
use run_rules::{Cause, Verdict};
use std::test::Fail;
use tests_kit::ONE;

/// Purge 1 is issued at place 1.
const ISSUED: &[Call] = &[(1, Called::Issue(A), Told::Issued(1))];

/// The CLR of purge 1 is taken.
const CLEARED: &[Step] = &[(2, Met::Clear(1, A), Said::Acknowledged)];

/// The store fails at it.
const STORE_FAULT: &[Step] = &[(2, Met::Clear(1, A), Said::Fault(StepFault::StoreFault))];

/// A run: its name, its records, the index of the one that opens, or closes, with a base, and its
/// first flaw, if it has one.
type Run = (
    &'static str,
    &'static [Shift],
    usize,
    bool,
    Option<(u64, Cause)>,
);

const OPENS: bool = false;

const CLOSES: bool = true;

const RUNS: &[Run] = &[
    (
        "a new node",
        &[Shift(1, 0, CLEARED, Some(1))],
        0,
        OPENS,
        Some((2, Cause::OtherState)),
    ),
    (
        "a restart",
        &[Shift(1, 0, CLEARED, Some(1)), Shift(1, 1, &[], Some(1))],
        1,
        OPENS,
        Some((0, Cause::OtherState)),
    ),
    (
        "an end",
        &[Shift(1, 0, CLEARED, Some(1))],
        0,
        CLOSES,
        Some((2, Cause::OtherState)),
    ),
    // What a closed node has in memory may not be what is stored.
    (
        "the end of a closed node",
        &[Shift(1, 0, STORE_FAULT, None), Shift(1, 0, &[], Some(0))],
        0,
        CLOSES,
        None,
    ),
    (
        "a restart after a store fault, without the purge",
        &[Shift(1, 0, STORE_FAULT, None), Shift(1, 0, &[], Some(0))],
        1,
        OPENS,
        Some((0, Cause::OtherState)),
    ),
    (
        "a restart after a store fault, with the purge",
        &[Shift(1, 0, STORE_FAULT, None), Shift(1, 1, &[], Some(1))],
        1,
        OPENS,
        Some((0, Cause::OtherState)),
    ),
];

/// Gives the floors in which this record opens or closes the base 1.
fn raise_base(records: &mut Vec<Record>, at: usize, closes: bool) {
    if let Some(record) = records.get_mut(at) {
        if closes {
            record.closing.floors.raise_base(1);
        } else {
            record.opening.floors.raise_base(1);
        }
    }
}

/// The verdict on a run.
fn verdict_on(rt: &HostRuntime, run: &Run) -> Result<Verdict, Fail> {
    let (_, shifts, at, closes, _) = *run;
    let mut records = records_of(rt.alloc(), shifts)?;
    raise_base(&mut records, at, closes);
    let entries = calls_of(rt.alloc(), ISSUED)?;
    verdict(rt, ONE, records.as_slice(), entries.as_slice())
}

/// The verdict that a run is to have.
fn wanted(run: &Run) -> Verdict {
    match run.4 {
        Some((place, cause)) => Verdict::No { place, cause },
        None => Verdict::Yes,
    }
}

/// The first run that has another verdict than it is to have, and that verdict.
fn first_other(rt: &HostRuntime) -> Result<Option<(&'static str, Verdict)>, Fail> {
    for run in RUNS {
        let verdict = verdict_on(rt, run)?;
        if verdict != wanted(run) {
            return Ok(Some((run.0, verdict)));
        }
    }
    Ok(None)
}

#[test]
fn a_base_of_its_own_is_found(rt: HostRuntime) -> Result<(), Fail> {
    let other = first_other(&rt)?;
    assert!(rt; other.is_none(), "{other:?}");
    Ok(())
}
