ghost use Rattle.std.specs.Prelude.{◌≡◌};
ghost use Rattle.world_rules.specs.Names.{world_fault_name};

use node_rules::{Serve, StepFault};
use purge_rules::{MasterFault, Status};
use roster::Listed;
use std::alloc::AllocError;
use thiserror::Error;

/// What an applied event did. What was sent stands as numbers: `World::datagrams` of
/// `hierarchy_world` lists the datagrams.
pub struct Outcome {
    /// What a member serves. A copy's tag is its mark.
    pub serve: Option<Serve<u64>>,
    /// The number of the response that was sent to a member, if any.
    pub answer: Option<u64>,
    /// The number of the purge that was issued, if any.
    pub purge: Option<u32>,
    /// The number of the admission, if a member was admitted.
    pub admitted: Option<u32>,
    /// A number and its status, if a member answered its CLR or somebody asked for it.
    pub status: Option<(u32, Status)>,
    /// The serial of the round of queries that a member began, if any.
    pub round: Option<u32>,
    /// The numbers of the datagrams that were sent, in ascending order.
    pub sent: Listed<u64>,
    /// The number of the request that was sent to a member, if any.
    pub ask: Option<u64>,
    /// The serial of the origin read that a member began, if any.
    pub read: Option<u32>,
    /// Why the member or the master refused the event, if it did.
    pub fault: Option<ActorFault>,
}

impl Drop for Outcome {
    fn drop(self) {
        let Outcome {
            serve: _,
            answer: _,
            purge: _,
            admitted: _,
            status: _,
            round: _,
            sent: _,
            ask: _,
            read: _,
            fault: _,
        } = self;
    }
}

/// Why a member or the master refused an event.
#[derive(Clone, Copy, Debug, PartialEq, Eq)]
pub enum ActorFault {
    /// A member's step was refused.
    Step(StepFault),
    /// The master refused to issue a purge or to admit a member.
    Master(MasterFault),
}

/// Why an event was not applied. It has no place, and changed nothing, except that after `NoMemory`
/// the world must be made anew.
#[derive(Clone, Copy, Debug, PartialEq, Eq, Error)]
pub enum WorldFault {
    /// It names a datagram, a request, a response or a member that does not exist; or what arrives
    /// is for neither a member nor the master; or a `Strange` datagram has the address of a member
    /// or of the master as its source, or a destination that is no member's.
    #[error("there is no such packet")]
    NoSuchPacket,
    /// No origin read (`Origin`), or no fetch from a foreign cache (`Foreign`), is pending under
    /// this serial.
    #[error("nothing is pending at this serial")]
    NotPending,
    /// An allocation failed. The world must be made anew.
    #[error("there was no memory")]
    NoMemory,
    /// No place is left: events have the places 1 to 2^64 - 1.
    #[error("no place is left")]
    PlacesSpent,
}

impl From<AllocError> for WorldFault {
    ghost use Rattle.std.specs.Prelude.{◌≡◌};
    ghost use Rattle.world_rules.specs.declared.outcome.WorldFault.TheVariants.{NoMemory};

    ghost from_gives = { λ _ fault. fault ≡ NoMemory };

    fn from(_: AllocError) -> WorldFault {
        WorldFault::NoMemory
    }
}

impl WorldFault {
    /// The fault's name, as scripts print it.
    pub const fn name(self) -> &'static str
        ensures { result.now ≡ world_fault_name self }
    {
        match self {
            WorldFault::NoSuchPacket => "NoSuchPacket",
            WorldFault::NotPending => "NotPending",
            WorldFault::NoMemory => "NoMemory",
            WorldFault::PlacesSpent => "PlacesSpent",
        }
    }
}
