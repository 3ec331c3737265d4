//! The verdict on the records and entries of a run.
ghost use Rattle.std.specs.Prelude.{◌≡◌, ◌↔◌, IsTrue, IfOk};
ghost use Rattle.run_rules.specs.Verdict.{place_of as place_of_note};
ghost use Rattle.run_rules.specs.First.{Flaw, ClosesAtZero, IsFirstOn};
ghost use Rattle.run_notes.specs.Held.{note_of};
ghost use Rattle.run_check.specs.First.{at_zero, named as named_flaw, verdict_of};

use crate::alone::has_flawed_alone;
use crate::board::Board;
use node_book::Record;
use purge_master::MasterEntry;
use roster::Roster;
use run_notes::{Note, Notes};
use run_rules::{Cause, Verdict};
use std::alloc::{AllocError, Global};
use std::hash::RandomState;

/// The place that names a flaw of a note.
fn place_of(note: &Note<'_>) -> u64
    ensures { result ≡ place_of_note (note_of note.now) }
{
    match note {
        Note::Opens { .. } => 0,
        Note::Steps { entry, .. } => entry.place,
        Note::Closes { place, .. } => *place,
        Note::Calls { entry, .. } => entry.place,
    }
}

/// Whether a record closes at place 0, as one without entries does.
fn closes_at_zero(note: &Note<'_>) -> bool
    ensures { IsTrue result ↔ ClosesAtZero (note_of note.now) }
{
    match note {
        Note::Closes { place, .. } => *place == 0,
        _ => false,
    }
}

/// The verdict that names a flaw, or the one of a record that closes at place 0 if that is earlier
/// and there is one (`is_flawed`).
fn named(is_flawed: bool, place: u64, cause: Cause) -> Verdict
    ensures { result ≡ verdict_of (named_flaw is_flawed (record { place = place; cause = cause })) }
{
    if is_flawed && place > 0 {
        let cause = Cause::OtherState;
        return Verdict::No { place: 0, cause };
    }
    Verdict::No { place, cause }
}

/// Returns the verdict on a run, by the members' records and the master's entries: `Yes` if they
/// are a run of the model with this roster. Else it names the least place of all flaws, and the
/// first cause there.
///
/// Records of one node must stand in the order in which they were kept; records of different nodes
/// may stand in any order. `keys` are the keys of the hashes that find what was sent and the nodes'
/// copies: use random ones, so that nobody can pick texts whose look-ups are slow.
///
/// Fault: an allocation failed. This is never a verdict.
pub fn check_run(
    alloc: Global,
    keys: RandomState,
    roster: &Roster,
    records: &[Record],
    entries: &[MasterEntry],
) -> Result<Verdict, AllocError>
    ensures { IfOk result (IsFirstOn roster.now records.now entries.now) }
{
    let mut notes = Notes::new(alloc, records, entries)?;
    let mut board = Board::new(alloc, keys, roster);
    let mut is_flawed = has_flawed_alone(alloc, roster, records);
    while let Some(ordered) = notes.take() {
        if let Some(place) = ordered.double {
            return Ok(named(is_flawed, place, Cause::DoublePlace));
        }
        if let Some(cause) = board.judge(alloc, roster, ordered.note)? {
            if !closes_at_zero(&ordered.note) {
                return Ok(named(is_flawed, place_of(&ordered.note), cause));
            }
            is_flawed = true;
        }
    }
    if is_flawed {
        return Ok(named(true, 0, Cause::OtherState));
    }
    Ok(board.ending())
}
