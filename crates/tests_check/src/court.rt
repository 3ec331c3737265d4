//! A thousand changes of what is kept of a run, and the verdicts on them.
use crate::calls::{call_verdict_wanted, changed_calls};
use crate::changes::{CALL_CHANGES, CHANGES, Change, STATE_CHANGES, changed};
use crate::made::{floors_of, state_of};
use crate::runs::{Kept, OTHER, PURGED, kept_run};
use crate::wanted::{Wanted, verdict_wanted};
use node_book::{NodeEntry, Record};
use node_rules::NodeState;
use roster::{Listed, Roster};
use run_check::check_run;
use run_rules::{Cause, Verdict};
use std::alloc::{AllocError, Global};
use std::hash::RandomState;
use std::mem::swap;
use std::test::Fail;
use tests_kit::{TWO, key_of, roster_of};
use url_key::Key;

/// How many changes were tried, how many of them leave a run, and the first whose verdict was not
/// what was wanted.
#[derive(Clone, Copy, Debug)]
struct Tally {
    tried: u32,
    runs: u32,
    wrong: Option<(Change, Wanted, Verdict)>,
}

impl Tally {
    fn add(&mut self, change: Change, wanted: Wanted, verdict: Verdict) {
        self.tried = self.tried.wrapping_add(1);
        if verdict == Verdict::Yes {
            self.runs = self.runs.wrapping_add(1);
        }
        if self.wrong.is_none() && !wanted.is_met_by(verdict) {
            self.wrong = Some((change, wanted, verdict));
        }
    }
}

/// Who judges a run of a roster, and its changes.
#[derive(Drop)]
struct Court<'a> {
    alloc: Global,
    keys: RandomState,
    roster: &'a Roster,
    kept: Kept,
    /// A state with another block of serials next, a floor more, and no copies.
    spare: NodeState<()>,
    /// A URL that is purged in place of another.
    other: Key,
    tally: Tally,
}

/// Exchanges the entries of a record with these.
fn exchange_entries(kept: &mut Kept, record: usize, other: &mut Listed<NodeEntry>) {
    if let Some(record) = kept.records.get_mut(record) {
        swap(&mut record.entries, other);
    }
}

/// Exchanges what is changed of a state with that of another one.
fn exchange(state: &mut NodeState<()>, other: &mut NodeState<()>, change: Change) {
    match change {
        Change::OtherNext => swap(&mut state.next, &mut other.next),
        Change::OtherFloors => swap(&mut state.floors, &mut other.floors),
        _ => swap(&mut state.copies, &mut other.copies),
    }
}

/// Exchanges what is changed of the state in which a record opens or closes with that of another
/// one.
fn exchange_states(
    kept: &mut Kept,
    record: usize,
    is_closing: bool,
    change: Change,
    other: &mut NodeState<()>,
) {
    if let Some(record) = kept.records.get_mut(record) {
        if is_closing {
            exchange(&mut record.closing, other, change);
        } else {
            exchange(&mut record.opening, other, change);
        }
    }
}

/// What is wanted where a record opens or closes in another state: that is found at its last entry.
/// None where it has no copies to lose.
fn state_wanted(record: &Record, is_closing: bool, change: Change) -> Option<Wanted> {
    let state = if is_closing {
        &record.closing
    } else {
        &record.opening
    };
    if change == Change::NoCopies && state.copies.as_slice().is_empty() {
        return None;
    }
    let last = record.entries.as_slice().last()?;
    Some(Wanted::Flaw(last.place, Cause::OtherState))
}

impl Court<'_> {
    /// The verdict on the run as it stands.
    fn verdict(&self) -> Result<Verdict, AllocError> {
        let (records, entries) = (self.kept.records.as_slice(), self.kept.entries.as_slice());
        check_run(self.alloc, self.keys, self.roster, records, entries)
    }

    /// Judges the run as it stands, of which this was changed.
    fn judge(&mut self, change: Change, wanted: Wanted) -> Result<(), AllocError> {
        let verdict = self.verdict()?;
        self.tally.add(change, wanted, verdict);
        Ok(())
    }

    /// Tries one change of an entry of a record.
    fn try_change(&mut self, record: usize, at: usize, change: Change) -> Result<(), AllocError> {
        let Some(changing) = self.kept.records.get(record) else {
            return Ok(());
        };
        let entries = changing.entries.as_slice();
        let Some(wanted) = verdict_wanted(entries, at, change) else {
            return Ok(());
        };
        let mut other = Listed::new(changed(self.alloc, entries, at, change)?);
        exchange_entries(&mut self.kept, record, &mut other);
        let judged = self.judge(change, wanted);
        exchange_entries(&mut self.kept, record, &mut other);
        judged
    }

    /// Tries one change of the state in which a record opens or closes.
    fn try_state(
        &mut self,
        record: usize,
        is_closing: bool,
        change: Change,
    ) -> Result<(), AllocError> {
        let Some(changing) = self.kept.records.get(record) else {
            return Ok(());
        };
        let Some(wanted) = state_wanted(changing, is_closing, change) else {
            return Ok(());
        };
        exchange_states(&mut self.kept, record, is_closing, change, &mut self.spare);
        let judged = self.judge(change, wanted);
        exchange_states(&mut self.kept, record, is_closing, change, &mut self.spare);
        judged
    }

    /// Tries one change of an entry of the master.
    fn try_call(&mut self, at: usize, change: Change) -> Result<(), AllocError> {
        let Some(wanted) = call_verdict_wanted(&self.kept, at, change) else {
            return Ok(());
        };
        let mut other = changed_calls(self.alloc, &self.kept, at, change, &self.other)?;
        swap(&mut self.kept.entries, &mut other);
        let judged = self.judge(change, wanted);
        swap(&mut self.kept.entries, &mut other);
        judged
    }

    /// Tries each change of each entry of a record, and of its states.
    fn try_record(&mut self, record: usize) -> Result<(), AllocError> {
        let count = match self.kept.records.get(record) {
            Some(record) => record.entries.as_slice().len(),
            None => 0,
        };
        for at in 0..count {
            for change in CHANGES {
                self.try_change(record, at, change)?;
            }
        }
        for change in STATE_CHANGES {
            self.try_state(record, false, change)?;
            self.try_state(record, true, change)?;
        }
        Ok(())
    }

    /// Tries all changes of the run.
    fn try_all(&mut self) -> Result<(), AllocError> {
        for record in 0..self.kept.records.len() {
            self.try_record(record)?;
        }
        for at in 0..self.kept.entries.len() {
            for change in CALL_CHANGES {
                self.try_call(at, change)?;
            }
        }
        Ok(())
    }
}

fn spare_of(alloc: Global) -> Result<NodeState<()>, Fail> {
    let floors = floors_of(alloc, PURGED, 77_777)?;
    let mut spare = state_of(alloc, floors, false);
    spare.next = 77_777;
    Ok(spare)
}

fn court_of(alloc: Global, keys: RandomState, roster: &Roster) -> Result<Court<'_>, Fail> {
    let other = key_of(alloc, OTHER)?;
    let spare = spare_of(alloc)?;
    Ok(Court {
        alloc,
        keys,
        roster,
        kept: kept_run(alloc)?,
        spare,
        other,
        tally: Tally {
            tried: 0,
            runs: 0,
            wrong: None,
        },
    })
}

/// The tally of all changes of a run that is one itself.
fn tally_of(alloc: Global, keys: RandomState) -> Result<Tally, Fail> {
    let roster = roster_of(alloc, TWO)?;
    let mut court = court_of(alloc, keys, &roster)?;
    if court.verdict()? != Verdict::Yes {
        return Err("an honest run is none".into());
    }
    court.try_all()?;
    Ok(court.tally)
}

#[test]
fn changes_of_a_run_are_found(rt: HostRuntime) -> Result<(), Fail> {
    let tally = tally_of(rt.alloc(), RandomState::new(&rt)?)?;
    assert!(rt;
        tally.tried >= 1000 && tally.runs < tally.tried,
        "{tally:?}"
    );
    assert!(rt; tally.wrong.is_none(), "{tally:?}");
    Ok(())
}
