//! Which steps are owed where memory lacks, and how they are taken again.
ghost use Rattle.std.specs.Prelude.{◌≡◌};
ghost use Rattle.cluster_service.specs.Owed.{ending, owed_after, again as taken_again};

use cluster_jobs::Job;
use cluster_waiting::{Ends, OwedStep};
use node_rules::{Begin, Event};

/// The step at the end of what has this serial.
fn owed(serial: u32, ends: Ends) -> OwedStep
    ensures { result ≡ record { serial = serial; ends = ends } }
{
    OwedStep { serial, ends }
}

/// What is owed after a step with this event that found no memory: the end of a round or a fetch,
/// for which a pending request waits. Nobody waits for any other event: who sent it asks again, or
/// was told.
pub(crate) fn owed_by(event: &Event<()>) -> Option<OwedStep>
    ensures { result ≡ owed_after event.now }
{
    match event {
        Event::Expired { serial, .. } => Some(owed(*serial, Ends::Round)),
        Event::FetchFailed { serial, .. }
        | Event::PeerAnswer { serial, .. }
        | Event::OriginAnswer { serial, .. }
        | Event::ForeignAnswer { serial, .. } => Some(owed(*serial, Ends::Fetch)),
        Event::Client { .. } | Event::Datagram { .. } | Event::PeerAsk { .. } => None,
    }
}

/// What is owed where this could not begin: its end.
pub(crate) fn end_of(begin: &Begin) -> OwedStep
    ensures { result ≡ ending begin.now }
{
    match begin {
        Begin::Round { serial } => owed(*serial, Ends::Round),
        Begin::Peer { serial, .. } | Begin::Read { serial, .. } => owed(*serial, Ends::Fetch),
    }
}

/// The job by which a worker takes a step again that is owed.
pub fn again(step: OwedStep) -> Job
    ensures { result ≡ taken_again step }
{
    let serial = step.serial;
    match step.ends {
        Ends::Round => Job::Timer { serial },
        Ends::Fetch => Job::Failed { serial },
    }
}
