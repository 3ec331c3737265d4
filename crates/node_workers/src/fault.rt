//! Why a node does not start, or does not give its record.
ghost use Rattle.std.specs.Prelude.{◌≡◌};
ghost use Rattle.node_workers.specs.Names.{start_fault_name, stop_fault_name};

use cluster_sockets::LoopFault;
use node_core::OpenFault;
use std::alloc::AllocError;
use thiserror::Error;

/// Why a node does not start. No thread of it runs then.
#[derive(Clone, Copy, Debug, PartialEq, Eq, Error)]
pub enum StartFault {
    /// The node is not opened.
    #[error("{0}")]
    Open(OpenFault),
    /// Its sockets, or the poll instances of its threads, are not opened.
    #[error("{0}")]
    Loop(LoopFault),
    /// A thread could not be started.
    #[error("no thread could be made")]
    NoThread,
    /// There was no memory.
    #[error("there was no memory")]
    NoMemory,
}

/// Why a node that is opened does not run.
#[derive(Clone, Copy, Debug, PartialEq, Eq)]
pub(crate) enum Unready {
    /// Its sockets, or the poll instances of its threads, are not opened.
    Loop(LoopFault),
    /// A thread could not be started.
    NoThread,
    /// There was no memory.
    NoMemory,
}

/// Why the record of a node is not given.
#[derive(Clone, Copy, Debug, PartialEq, Eq, Error)]
pub enum StopFault {
    /// The node's thread has ended.
    #[error("the node has ended")]
    Ended,
    /// There was no memory to end a record or to begin the next.
    #[error("there was no memory")]
    NoMemory,
}

impl StartFault {
    /// The name that scripts print: that of the fault inside, where there is one.
    pub const fn name(self) -> &'static str
        ensures { result.now ≡ start_fault_name self }
    {
        match self {
            StartFault::Open(fault) => fault.name(),
            StartFault::Loop(fault) => fault.name(),
            StartFault::NoThread => "NoThread",
            StartFault::NoMemory => "NoMemory",
        }
    }
}

impl StopFault {
    /// The name that scripts print: that of the variant.
    pub const fn name(self) -> &'static str
        ensures { result.now ≡ stop_fault_name self }
    {
        match self {
            StopFault::Ended => "Ended",
            StopFault::NoMemory => "NoMemory",
        }
    }
}

impl From<AllocError> for StartFault {
    ghost use Rattle.std.specs.Prelude.{◌≡◌};
    ghost use Rattle.node_workers.specs.declared.fault.StartFault.TheVariants.{NoMemory};

    ghost from_gives = { λ _ fault. fault ≡ NoMemory };

    fn from(_: AllocError) -> StartFault {
        StartFault::NoMemory
    }
}

impl From<Unready> for StartFault {
    ghost use Rattle.std.specs.Prelude.{◌≡◌};
    ghost use Rattle.node_workers.specs.Names.{start_fault_of};

    ghost from_gives = { λ unready start. start ≡ start_fault_of unready };

    fn from(unready: Unready) -> StartFault {
        match unready {
            Unready::Loop(fault) => StartFault::Loop(fault),
            Unready::NoThread => StartFault::NoThread,
            Unready::NoMemory => StartFault::NoMemory,
        }
    }
}

impl From<AllocError> for Unready {
    ghost use Rattle.std.specs.Prelude.{◌≡◌};
    ghost use Rattle.node_workers.specs.declared.fault.Unready.TheVariants.{NoMemory};

    ghost from_gives = { λ _ unready. unready ≡ NoMemory };

    fn from(_: AllocError) -> Unready {
        Unready::NoMemory
    }
}

impl From<LoopFault> for Unready {
    ghost use Rattle.std.specs.Prelude.{◌≡◌};
    ghost use Rattle.node_workers.specs.declared.fault.Unready.TheVariants.{Loop};

    ghost from_gives = { λ fault unready. unready ≡ Loop fault };

    fn from(fault: LoopFault) -> Unready {
        Unready::Loop(fault)
    }
}

impl From<AllocError> for StopFault {
    ghost use Rattle.std.specs.Prelude.{◌≡◌};
    ghost use Rattle.node_workers.specs.declared.fault.StopFault.TheVariants.{NoMemory};

    ghost from_gives = { λ _ fault. fault ≡ NoMemory };

    fn from(_: AllocError) -> StopFault {
        StopFault::NoMemory
    }
}
