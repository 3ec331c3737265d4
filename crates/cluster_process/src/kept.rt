//! What is kept of a run, and how much of it.
ghost use Rattle.std.specs.Prelude.{◌≡◌, ◌==◌, ◌++◌, None, OnOk, option_map};
ghost use Rattle.std.specs.List.{list_any};
ghost use Rattle.cluster_console.specs.Checked.{GoesOn};
ghost use Rattle.cluster_process.specs.Kept.{gathered_at_first, gathered_in, tells_nothing};
ghost use Rattle.cluster_process.specs.Kept.{with_record};

use cluster_master::weight_of_all;
use node_book::{MOST_ENTRIES, NodeEntry, Record};
use node_seats::octets_of;
use purge_master::MasterEntry;
use std::alloc::{AllocError, Global};

/// What the members and the master of a hierarchy did, from the start on.
pub struct RecordedRun {
    /// The records of the members, those of one member in their order.
    pub records: Vec<Record>,
    /// The master's calls, in their order.
    pub entries: Vec<MasterEntry>,
}

impl Drop for RecordedRun {
    fn drop(self) {
        let RecordedRun {
            records: _,
            entries: _,
        } = self;
    }
}

/// What is kept of a run so far; none, where some of it is lost.
#[derive(Drop)]
pub(crate) struct Memory {
    most: u64,
    /// What is kept.
    pub(crate) kept: Option<RecordedRun>,
}

/// This many floors, copies and pending requests of a state count as one entry.
const ROWS_OF_AN_ENTRY: u64 = 4;

/// This many octets that a record's events brought along count as one entry.
const OCTETS_OF_AN_ENTRY: u64 = 1_024;

/// How many entries are kept at most of this many members and a master, with this many pages of
/// each.
fn most_entries(members: usize, pages: u32) -> u64 {
    let each = u64::from(pages).saturating_mul(MOST_ENTRIES as u64);
    each.saturating_mul((members as u64).saturating_add(1))
}

/// How many octets the events of these entries brought along.
fn octets_in(entries: &[NodeEntry]) -> u64 {
    let mut octets = 0u64;
    for entry in entries {
        octets = octets.saturating_add(octets_of(&entry.event));
    }
    octets
}

/// The size of a record, counted in entries: its entries, its two states by what they hold, and its
/// events by the octets that they brought along.
fn weight(record: &Record) -> u64 {
    let mut rows = 0u64;
    for state in [&record.opening, &record.closing] {
        for part in [
            state.floors.rows(),
            state.copies.as_slice().len(),
            state.pending.as_slice().len(),
        ] {
            rows = rows.saturating_add(part as u64);
        }
    }
    let entries = record.entries.as_slice();
    (entries.len() as u64)
        .saturating_add(rows / ROWS_OF_AN_ENTRY)
        .saturating_add(octets_in(entries) / OCTETS_OF_AN_ENTRY)
}

/// Whether one of the records is of this member.
fn has_record_of(records: &[Record], id: u8) -> bool
    ensures { result ≡ list_any (λ r. r.node == id) records.now }
{
    records.iter().any(|record| record.node == id)
}

/// Whether a record tells nothing: it has no entry, and it is not the first of its
/// member.
fn is_idle(records: &[Record], next: &Record) -> bool
    ensures { result ≡ tells_nothing records.now next.now }
{
    next.entries.as_slice().is_empty() && has_record_of(records, next.node)
}

impl RecordedRun {
    /// The size of all that is kept, counted in entries.
    fn weight(&self) -> u64 {
        self.records
            .iter()
            .map(|record| weight(record))
            .fold(weight_of_all(self.entries.as_slice()), |sum, each| {
                u64::saturating_add(sum, each)
            })
    }

    /// Puts the next record of a member behind those that are kept, unless it tells nothing.
    fn put_record(&mut self, next: Record) -> Result<(), AllocError>
        ensures records { OnOk result (self.new.records.items
            ≡ with_record self.old.records.items next) }
        ensures entries { self.new.entries ≡ self.old.entries }
    {
        if is_idle(self.records.as_slice(), &next) {
            return Ok(());
        }
        Ok(self.records.push(next)?)
    }

    /// Puts the next calls of the master behind those that are kept.
    fn put_entries(&mut self, mut entries: Vec<MasterEntry>) -> Result<(), AllocError>
        ensures entries { OnOk result (self.new.entries.items ≡ self.old.entries.items
            ++ entries.items) }
        ensures records { self.new.records ≡ self.old.records }
    {
        self.entries.append(&mut entries)
    }
}

impl Memory {
    /// Nothing was done so far. Of each of this many members, and of the master, this many pages
    /// are kept; nothing, where that is 0.
    pub(crate) fn new(alloc: Global, members: usize, pages: u32) -> Memory
        ensures { gathered_in result.kept ≡ gathered_at_first pages }
    {
        let kept = RecordedRun {
            records: Vec::new(alloc),
            entries: Vec::new(alloc),
        };
        Memory {
            most: most_entries(members, pages),
            kept: if pages == 0 { None } else { Some(kept) },
        }
    }

    /// All that was done so far, if it is kept.
    pub(crate) fn kept(&self) -> Option<&RecordedRun>
        ensures { option_map (λ kept. kept.now) result ≡ self.now.kept }
    {
        self.kept.as_ref()
    }

    /// All that was done, if it is kept.
    pub(crate) fn into_kept(self) -> Option<RecordedRun>
        ensures { result ≡ self.kept }
    {
        self.kept
    }

    /// Drops everything that was kept: some of the run is lost.
    pub(crate) fn forget(&mut self)
        ensures { self.new.kept ≡ None }
    {
        self.kept = None;
    }

    /// Drops everything, where it is more than may be kept.
    #[tactic(auto, using(crate::proofs::Gathering::kept_as_it_was, crate::proofs::Gathering::dropped))]
    pub(crate) fn limit(&mut self)
        ensures { GoesOn (gathered_in self.old.kept) (gathered_in self.new.kept) }
    {
        if let Some(kept) = &self.kept {
            if self.most < kept.weight() {
                self.forget();
            }
        }
    }

    /// Puts the next record of a member behind those that are kept. Where there is no memory for
    /// that, everything is dropped.
    #[tactic(auto, using(crate::proofs::Gathering::kept_as_it_was, crate::proofs::Gathering::dropped, crate::proofs::Gathering::record_put))]
    pub(crate) fn put_record(&mut self, next: Record) -> Result<(), AllocError>
        ensures { GoesOn (gathered_in self.old.kept) (gathered_in self.new.kept) }
    {
        let Some(kept) = &mut self.kept else {
            return Ok(());
        };
        let put = kept.put_record(next);
        if put.is_err() {
            self.forget();
        }
        put
    }

    /// Puts the next calls of the master behind those that are kept. Where there is no memory for
    /// that, everything is dropped.
    #[tactic(auto, using(crate::proofs::Gathering::kept_as_it_was, crate::proofs::Gathering::dropped, crate::proofs::Gathering::entries_put))]
    pub(crate) fn put_entries(&mut self, entries: Vec<MasterEntry>) -> Result<(), AllocError>
        ensures { GoesOn (gathered_in self.old.kept) (gathered_in self.new.kept) }
    {
        let Some(kept) = &mut self.kept else {
            return Ok(());
        };
        let put = kept.put_entries(entries);
        if put.is_err() {
            self.forget();
        }
        put
    }
}
