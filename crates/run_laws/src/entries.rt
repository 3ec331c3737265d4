//! The law of entries. Its clauses are theorems about the entries of a recorded run.
ghost use Rattle.std.specs.Prelude.{List};
ghost use Rattle.values_tables.specs.declared.plain.Tables.{Tables};
ghost use Rattle.roster.specs.Judged.{IsRoster};
ghost use Rattle.node_book.specs.declared.record.Record.{Record};
ghost use Rattle.purge_master.specs.declared.book.MasterEntry.{MasterEntry};
ghost use Rattle.world_rules.specs.Run.{Step};
ghost use Rattle.run_rules.specs.Recorded.{IsRecordedRun};
ghost use Rattle.run_laws.specs.Entries.{EntriesServeNothingOld, SiblingsBeginNothing};

/// Purges are safe, as the entries of a recorded run tell it.
///
/// `served`: once an entry of the master reports a purge done, each copy of its key that a later
/// entry of a member begins to serve is an origin's response to a read that began after the purge
/// was issued. `siblings`: no entry of a sibling's request begins a round, a fetch or a read, or
/// sends to anybody but the requester.
pub fn entries_are_safe()
    ensures served { (roster : Tables) (records : List Record) (entries : List MasterEntry)
        (steps : List Step) → IsRoster roster → (run : IsRecordedRun roster records entries steps) →
        EntriesServeNothingOld roster run.notes steps }
    ensures siblings { (roster : Tables) (records : List Record) (entries : List MasterEntry)
        (steps : List Step) → (run : IsRecordedRun roster records entries steps) →
        SiblingsBeginNothing roster run.notes }
{}
