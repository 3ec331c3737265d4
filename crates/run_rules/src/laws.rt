//! The laws. Each function has no body: its clauses are theorems about the definitions.
ghost use Rattle.std.specs.Prelude.{List};
ghost use Rattle.values_tables.specs.declared.plain.Tables.{Tables};
ghost use Rattle.roster.specs.Judged.{IsRoster};
ghost use Rattle.node_book.specs.declared.record.Record.{Record};
ghost use Rattle.purge_master.specs.declared.book.MasterEntry.{MasterEntry};
ghost use Rattle.world_rules.specs.Run.{Step};
ghost use Rattle.world_rules.specs.Safety.{NothingOldIsServed, SiblingsAskNothing};
ghost use Rattle.run_rules.specs.declared.verdict.Verdict.TheVariants.{Yes};
ghost use Rattle.run_rules.specs.Verdict.{IsVerdictOn};
ghost use Rattle.run_rules.specs.Recorded.{IsRecordedRun};

/// Records and entries with the verdict `Yes` are a run of the model.
pub fn flawless_runs_are_runs_of_the_world()
    ensures { (roster : Tables) (records : List Record) (entries : List MasterEntry) →
        IsRoster roster → IsVerdictOn roster records entries Yes →
        (steps : List Step) × IsRecordedRun roster records entries steps }
{}

/// Purges are safe in each recorded run. `served`: once a purge is reported done, nothing old is
/// served. `siblings`: no request to a sibling begins anything.
pub fn recorded_runs_are_safe()
    ensures served { (roster : Tables) (records : List Record) (entries : List MasterEntry)
        (steps : List Step) → IsRoster roster → IsRecordedRun roster records entries steps →
        NothingOldIsServed steps }
    ensures siblings { (roster : Tables) (records : List Record) (entries : List MasterEntry)
        (steps : List Step) → IsRecordedRun roster records entries steps →
        SiblingsAskNothing roster steps }
{}
