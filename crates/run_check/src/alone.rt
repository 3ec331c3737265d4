//! Records without entries, judged by what is recorded alone.
ghost use Rattle.std.specs.Prelude.{◌≡◌, ◌↔◌, [], option_map, IsTrue};
ghost use Rattle.run_rules.specs.First.{last_of as last_record_of, left_by, GoesThrough};
ghost use Rattle.run_rules.specs.First.{IsFlawedAlone, HasFlawedAlone};

use crate::states::{is_opened, same_state};
use floor_rules::Floors;
use node_book::Record;
use roster::Roster;
use std::alloc::Global;

/// The last of these records of the node, if there is one.
fn last_of(records: &[Record], node: u8) -> Option<&Record>
    ensures { option_map (λ r. r.now) result ≡ last_record_of node records.now }
{
    for at in (0..records.len()).rev() {
        let last = &records[at];
        if last.node == node {
            return Some(last);
        }
    }
    None
}

/// Whether a record may open and close behind this one of its node with no entry between, or as the
/// node's first. Behind one of a closed node it may.
fn goes_through(alloc: Global, before: Option<&Record>, after: &Record) -> bool
    ensures { IsTrue result ↔ GoesThrough (left_by (option_map (λ r. r.now) before.entry))
        after.now }
{
    match before {
        None => {
            is_opened(&after.opening, &Floors::new(alloc))
                && same_state(&after.closing, &after.opening)
        }
        Some(before) => {
            let left = &before.closing;
            left.closed
                || (same_state(&after.opening, left) || is_opened(&after.opening, &left.floors))
                    && same_state(&after.closing, &after.opening)
        }
    }
}

/// Whether a record without entries cannot follow the one before it of its node, or the roster has
/// no such member. `front` are the records before it.
fn is_flawed_alone(alloc: Global, roster: &Roster, front: &[Record], after: &Record) -> bool
    ensures { IsTrue result ↔ IsFlawedAlone roster.now
        (last_record_of after.now.node front.now) after.now }
{
    after.entries.as_slice().is_empty()
        && !(roster.is_member(after.node) && goes_through(alloc, last_of(front, after.node), after))
}

/// Whether one of these records has no entries and is flawed by what is recorded alone.
pub(crate) fn has_flawed_alone(alloc: Global, roster: &Roster, records: &[Record]) -> bool
    ensures { IsTrue result ↔ HasFlawedAlone roster.now [] records.now }
{
    for at in 0..records.len() {
        if is_flawed_alone(alloc, roster, &records[..at], &records[at]) {
            return true;
        }
    }
    false
}
