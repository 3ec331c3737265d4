//! Why a client or an answer is not kept, and what is handed back then.
ghost use Rattle.std.specs.Prelude.{◌≡◌};
ghost use Rattle.cluster_waiting.specs.Names.{table_fault_name};

use thiserror::Error;

/// Why a client or an answer is not kept in [`WaitingClients`](crate::WaitingClients).
#[derive(Clone, Copy, Debug, PartialEq, Eq, Error)]
pub enum TableFault {
    /// Another client, or another answer, is kept under this block.
    #[error("another one waits at this block")]
    Taken,
    /// 1,056 clients, or 1,056 answers, are kept already.
    #[error("too many wait")]
    Full,
    /// There was no memory.
    #[error("there was no memory")]
    NoMemory,
}

impl TableFault {
    /// The name that scripts print: that of the variant.
    pub const fn name(self) -> &'static str
        ensures { result.now ≡ table_fault_name self }
    {
        match self {
            TableFault::Taken => "Taken",
            TableFault::Full => "Full",
            TableFault::NoMemory => "NoMemory",
        }
    }
}

/// A client or an answer that is handed back, with the reason.
#[derive(Debug, Drop)]
pub struct HandedBack<T> {
    /// The client or the answer.
    pub back: T,
    /// Why it is not kept.
    pub fault: TableFault,
}
