ghost use Rattle.std.specs.Prelude.{◌≡◌};
ghost use Rattle.node_http.specs.Statuses.{serve_fault_name};

use http_messages::FetchFault;
use node_rules::StepFault;
use thiserror::Error;

/// Why a request was not served.
#[derive(Clone, Copy, Debug, PartialEq, Eq, Error)]
pub enum ServeFault {
    /// The request was not read, and no step was taken; or the response was not written whole.
    #[error("{0}")]
    Fetch(FetchFault),
    /// The step was refused.
    #[error("{0}")]
    Step(StepFault),
}

impl ServeFault {
    /// The name of the fault inside, as scripts print it.
    pub const fn name(self) -> &'static str
        ensures { result.now ≡ serve_fault_name self }
    {
        match self {
            ServeFault::Fetch(fault) => fault.name(),
            ServeFault::Step(fault) => fault.name(),
        }
    }
}
