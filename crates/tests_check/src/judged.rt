//! The verdicts on runs that are made by hand.
use crate::causes::CAUSES;
use crate::events::{A, Met};
use crate::first::FIRST;
use crate::made::{Call, Said, Shift, calls_of, records_of};
use crate::places::PLACES;
use crate::restarts::RESTARTS;
use crate::sent::SENT;
use node_book::Record;
use purge_master::MasterEntry;
use run_check::check_run;
use run_rules::{Cause, Verdict};
use std::hash::RandomState;
use std::test::Fail;
use tests_kit::roster_of;

/// A client asks for a copy.
pub(crate) const ASK: Met = Met::Cached(A);

/// What a node that has no copy serves then.
pub(crate) const NO_COPY: Said = Said::Status(504);

/// What it never serves then.
pub(crate) const WRONG: Said = Said::Status(502);

/// A run: its name, its roster, its records, the calls of its master, and its first flaw, if it is
/// none of the world.
pub(crate) type Run = (
    &'static str,
    &'static str,
    &'static [Shift],
    &'static [Call],
    Option<(u64, Cause)>,
);

/// The verdict on what is kept of a run.
pub(crate) fn verdict(
    rt: &HostRuntime,
    roster: &str,
    records: &[Record],
    entries: &[MasterEntry],
) -> Result<Verdict, Fail> {
    let roster = roster_of(rt.alloc(), roster)?;
    let keys = RandomState::new(rt)?;
    Ok(check_run(rt.alloc(), keys, &roster, records, entries)?)
}

/// The verdict on a run.
fn verdict_on(rt: &HostRuntime, run: &Run) -> Result<Verdict, Fail> {
    let (_, roster, shifts, calls, _) = *run;
    let records = records_of(rt.alloc(), shifts)?;
    let entries = calls_of(rt.alloc(), calls)?;
    verdict(rt, roster, records.as_slice(), entries.as_slice())
}

/// The verdict that a run is to have.
fn wanted(run: &Run) -> Verdict {
    match run.4 {
        Some((place, cause)) => Verdict::No { place, cause },
        None => Verdict::Yes,
    }
}

/// The first of these runs that has another verdict than it is to have, and that verdict.
fn first_other(rt: &HostRuntime, runs: &[Run]) -> Result<Option<(&'static str, Verdict)>, Fail> {
    for run in runs {
        let verdict = verdict_on(rt, run)?;
        if verdict != wanted(run) {
            return Ok(Some((run.0, verdict)));
        }
    }
    Ok(None)
}

#[test]
fn runs_have_their_verdicts(rt: HostRuntime) -> Result<(), Fail> {
    for runs in [PLACES, CAUSES, FIRST, RESTARTS, SENT] {
        let other = first_other(&rt, runs)?;
        assert!(rt; other.is_none(), "{other:?}");
    }
    Ok(())
}
