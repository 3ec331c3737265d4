//! The tracks of a run, from its records and entries. Each is built from its end.
ghost use Rattle.std.specs.Prelude.{◌≡◌, ◌∷◌, ◌++◌, ◌==◌, [], not, filter, OnOk, IfOk};
ghost use Rattle.run_rules.specs.Notes.{is_closed_answer as is_answer_of_closed, steps_of};
ghost use Rattle.run_rules.specs.Notes.{last_place as last_place_of, record_notes, notes_of_all};
ghost use Rattle.run_rules.specs.Notes.{is_of, is_status as is_status_of};
ghost use Rattle.run_rules.specs.Notes.{is_shut_answer as is_answer_of_shut, is_shut_by, calls_of};
ghost use Rattle.run_rules.specs.Notes.{nodes_in as nodes_of, tracks_of};
ghost use Rattle.run_notes.specs.Held.{track_of, tracks_in};

use crate::Note;
use floor_rules::Floors;
use node_book::{NodeEntry, Record};
use node_rules::{Reply, StepFault};
use purge_master::MasterEntry;
use purge_rules::{MasterAnswer, MasterCall, MasterFault};
use std::alloc::{AllocError, Global};

/// Whether a step was refused because the node is closed.
fn is_closed_answer(outcome: &Result<Reply<()>, StepFault>) -> bool
    ensures { result ≡ is_answer_of_closed outcome.now }
{
    matches!(outcome, Err(StepFault::Closed))
}

/// Puts the notes of entries before those of a track. `is_closing` says whether the record closes
/// with a closed node.
fn push_steps<'a>(
    track: &mut Vec<Note<'a>>,
    node: u8,
    is_closing: bool,
    kept: &'a Floors,
    entries: &'a [NodeEntry],
) -> Result<(), AllocError>
    ensures { OnOk result (track_of track.new.items ≡ steps_of node is_closing kept.now entries.now
        ++ track_of track.old.items) }
{
    let mut is_closed = is_closing;
    for at in (0..entries.len()).rev() {
        let entry = &entries[at];
        track.push(Note::Steps {
            node,
            entry,
            is_closed,
            kept,
        })?;
        is_closed = is_closed_answer(&entry.outcome);
    }
    Ok(())
}

/// The place of the last entry, 0 if there is none.
fn last_place(entries: &[NodeEntry]) -> u64
    ensures { result ≡ last_place_of 0 entries.now }
{
    match entries.last() {
        Some(entry) => entry.place,
        None => 0,
    }
}

/// Puts a record's notes before those of a track. `kept` are the floors with which the node next
/// opens after the record.
fn push_record<'a>(
    track: &mut Vec<Note<'a>>,
    record: &'a Record,
    kept: &'a Floors,
) -> Result<(), AllocError>
    ensures { OnOk result (track_of track.new.items ≡ record_notes record.now kept.now
        ++ track_of track.old.items) }
{
    let entries = record.entries.as_slice();
    let node = record.node;
    track.push(Note::Closes {
        node,
        place: last_place(entries),
        state: &record.closing,
    })?;
    push_steps(track, node, record.closing.closed, kept, entries)?;
    track.push(Note::Opens {
        node,
        state: &record.opening,
    })?;
    Ok(())
}

/// The track of a node's records.
fn node_track<'a>(
    alloc: Global,
    records: &'a [Record],
    node: u8,
) -> Result<Vec<Note<'a>>, AllocError>
    ensures { IfOk result (λ track.
        track_of track.items ≡ notes_of_all (filter (is_of node) records.now)) }
{
    let mut track = Vec::new(alloc);
    let mut later: Option<&'a Floors> = None;
    for at in (0..records.len()).rev() {
        let record = &records[at];
        if record.node == node {
            let kept = later.unwrap_or(&record.closing.floors);
            push_record(&mut track, record, kept)?;
            if !record.opening.closed {
                later = Some(&record.opening.floors);
            }
        }
    }
    Ok(track)
}

/// Whether a call asks for a purge's status.
fn is_status(call: &MasterCall) -> bool
    ensures { result ≡ is_status_of call.now }
{
    matches!(call, MasterCall::Status(_))
}

/// Whether a call was refused because the master is closed.
fn is_shut_answer(answer: &Result<MasterAnswer, MasterFault>) -> bool
    ensures { result ≡ is_answer_of_shut answer.now }
{
    matches!(answer, Err(MasterFault::Closed))
}

/// Whether the master is closed before this entry. A status tells nothing; then `later` decides,
/// which says whether it is closed after the entry.
fn is_shut_before(entry: &MasterEntry, later: bool) -> bool
    ensures { result ≡ is_shut_by (is_status_of entry.now.call) entry.now.answer later }
{
    if is_status(&entry.call) {
        later
    } else {
        is_shut_answer(&entry.answer)
    }
}

/// The track of the master's entries.
fn master_track<'a>(alloc: Global, entries: &'a [MasterEntry]) -> Result<Vec<Note<'a>>, AllocError>
    ensures { IfOk result (λ track. track_of track.items ≡ calls_of entries.now) }
{
    let mut track = Vec::new(alloc);
    let mut is_closed = false;
    for at in (0..entries.len()).rev() {
        let entry = &entries[at];
        track.push(Note::Calls { entry, is_closed })?;
        is_closed = is_shut_before(entry, is_closed);
    }
    Ok(track)
}

/// Drops an id from a list.
fn drop_node(nodes: &mut Vec<u8>, node: u8)
    ensures { nodes.new.items ≡ filter (λ id. not (id == node)) nodes.old.items }
{
    nodes.retain(|other| *other != node);
}

/// The nodes that have records, each once, in the order of their first records.
fn nodes_in(alloc: Global, records: &[Record]) -> Result<Vec<u8>, AllocError>
    ensures { IfOk result (λ nodes. nodes.items ≡ nodes_of records.now) }
{
    let mut nodes = Vec::new(alloc);
    for at in (0..records.len()).rev() {
        let node = records[at].node;
        drop_node(&mut nodes, node);
        nodes.insert(0, node)?;
    }
    Ok(nodes)
}

/// All tracks: those of the nodes, then the master's.
pub(crate) fn tracks<'a>(
    alloc: Global,
    records: &'a [Record],
    entries: &'a [MasterEntry],
) -> Result<Vec<Vec<Note<'a>>>, AllocError>
    ensures { IfOk result (λ tracks. tracks_in tracks.items ≡ tracks_of records.now entries.now) }
{
    let mut tracks = Vec::new(alloc);
    for node in &nodes_in(alloc, records)? {
        tracks.push(node_track(alloc, records, *node)?)?;
    }
    tracks.push(master_track(alloc, entries)?)?;
    Ok(tracks)
}
