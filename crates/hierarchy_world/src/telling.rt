//! What an event visibly did, and its outcome.
ghost use Rattle.std.specs.Prelude.{◌≡◌, ◌-◌, IfOk};
ghost use Rattle.world_rules.specs.Consequence as consequences;
ghost use Rattle.world_rules.specs.Apply as applies;
ghost use Rattle.hierarchy_world.specs.Parts.{seen_of};
ghost use Rattle.hierarchy_world.specs.Outcomes.{outcome_by};

use node_rules::{Begin, Reply, StepFault};
use purge_rules::{MasterFault, Status};
use roster::Listed;
use std::alloc::{AllocError, Global};
use world_rules::{ActorFault, Outcome};

/// What an event visibly did.
#[derive(Drop)]
pub(crate) enum Seen {
    /// A member's node took a step, with this outcome.
    Replied {
        node: u8,
        outcome: Result<Reply<u64>, StepFault>,
    },
    /// The master issued a purge under this number.
    Issued(u32),
    /// The master refused to issue a purge.
    NotIssued(MasterFault),
    /// The master admitted a member under this number.
    Admitted(u32),
    /// The master refused to admit a member.
    NotAdmitted(MasterFault),
    /// The master reported the status of this number.
    Reported(u32, Status),
    /// Nothing visible.
    Nothing,
}

/// How many items were sent so far.
#[derive(Clone, Copy)]
pub(crate) struct Counts {
    pub datagrams: u64,
    pub asks: u64,
    pub answers: u64,
}

/// The numbers after `first`, up to and with `last`.
#[tactic(auto, using(crate::proofs::Numbers::numbers_more))]
fn numbers_after(alloc: Global, first: u64, last: u64) -> Result<Listed<u64>, AllocError>
    ensures { IfOk result (λ numbers. numbers ≡ applies.numbers_after first (last - first)) }
{
    let mut numbers = Vec::new(alloc);
    for number in first..last {
        numbers.push(number + 1)?;
    }
    Ok(Listed::new(numbers))
}

/// The number of the item that was sent, if any, by the counts before and after.
fn new_item(before: u64, after: u64) -> Option<u64>
    ensures { result ≡ applies.new_item before after }
{
    if before < after { Some(after) } else { None }
}

/// The serial of the round that begins, if any.
fn round_in(begin: &Option<Begin>) -> Option<u32>
    ensures { result ≡ applies.round_in begin.now }
{
    match begin {
        Some(Begin::Round { serial }) => Some(*serial),
        _ => None,
    }
}

/// The serial of the origin read that begins, if any.
fn read_in(begin: &Option<Begin>) -> Option<u32>
    ensures { result ≡ applies.read_in begin.now }
{
    match begin {
        Some(Begin::Read { serial, .. }) => Some(*serial),
        _ => None,
    }
}

/// An outcome that tells only what was sent.
fn plain(alloc: Global, before: Counts, after: Counts) -> Result<Outcome, AllocError>
    ensures { IfOk result (λ outcome. outcome ≡ outcome_by before after consequences.Nothing) }
{
    Ok(Outcome {
        serve: None,
        answer: new_item(before.answers, after.answers),
        purge: None,
        admitted: None,
        status: None,
        round: None,
        sent: numbers_after(alloc, before.datagrams, after.datagrams)?,
        ask: new_item(before.asks, after.asks),
        read: None,
        fault: None,
    })
}

/// The outcome of what was seen, by the counts of items sent before and after.
pub(crate) fn tell(
    alloc: Global,
    before: Counts,
    after: Counts,
    seen: Seen,
) -> Result<Outcome, AllocError>
    ensures { IfOk result (λ outcome. outcome ≡ outcome_by before after (seen_of seen)) }
{
    let mut outcome = plain(alloc, before, after)?;
    match seen {
        Seen::Replied {
            outcome: Ok(reply),
            ..
        } => {
            outcome.round = round_in(&reply.begin);
            outcome.read = read_in(&reply.begin);
            outcome.serve = reply.serve;
        }
        Seen::Replied {
            outcome: Err(fault),
            ..
        } => outcome.fault = Some(ActorFault::Step(fault)),
        Seen::Issued(number) => outcome.purge = Some(number),
        Seen::Admitted(number) => outcome.admitted = Some(number),
        Seen::NotIssued(fault) | Seen::NotAdmitted(fault) => {
            outcome.fault = Some(ActorFault::Master(fault));
        }
        Seen::Reported(number, status) => outcome.status = Some((number, status)),
        Seen::Nothing => {}
    }
    Ok(outcome)
}
