//! Why a task ended early, and what is said of it.
use cluster_origin::OriginFault;
use cluster_process::ClusterFault;
use roster::RosterError;
use std::io;
use std::process::ExitCode;
use values_lines::RunFault;

/// Why a task ended early.
#[derive(Drop)]
pub(crate) enum Failure {
    /// The roster's file could not be read.
    File,
    /// The roster's file is not UTF-8.
    NotText,
    /// The text is not that of a roster.
    Roster(RosterError),
    /// The run over the input stopped, or there was no memory to begin with.
    Run(RunFault),
    /// The cluster did not start, or stopped.
    Cluster(ClusterFault),
    /// The origin did not start, or stopped.
    Origin(OriginFault),
}

impl Failure {
    /// The name that the program prints.
    fn name(&self) -> &'static str {
        match self {
            Failure::File => "Io",
            Failure::NotText => "BadToml",
            Failure::Roster(error) => error.fault.name(),
            Failure::Run(fault) => fault.name(),
            Failure::Cluster(fault) => fault.name(),
            Failure::Origin(fault) => fault.name(),
        }
    }

    /// Says what was at fault, where that is more than the name.
    fn explain(&self, rt: &impl Eprint) -> io::Result<()> {
        match self {
            Failure::Cluster(fault) => eprintln!(rt; "{fault}"),
            Failure::Origin(fault) => eprintln!(rt; "{fault}"),
            Failure::File => eprintln!(rt; "the roster's file could not be read"),
            Failure::NotText => eprintln!(rt; "the roster's file is no text in UTF-8"),
            Failure::Roster(error) => eprintln!(rt; "the roster's file: {error}"),
            Failure::Run(_) => Ok(()),
        }
    }
}

/// The status with which the process ends: 0, or 1 after a failure, whose name goes to standard
/// error.
pub(crate) fn status_of(rt: &impl Eprint, done: Result<(), Failure>) -> ExitCode {
    match done {
        Ok(()) => ExitCode::SUCCESS,
        Err(failure) => {
            let _ = eprintln!(rt; "fault: {}", failure.name());
            let _ = failure.explain(rt);
            ExitCode::FAILURE
        }
    }
}
