//! Steps that found no memory, and are taken again.
ghost use Rattle.std.specs.Prelude.{◌≡◌, [], IfOk};
ghost use Rattle.cluster_waiting.specs.Owed.{noted, has_serial as stands_in, TakesOwed};

use std::alloc::{AllocError, Global};
use std::marker::Model;

/// How many steps are owed at most. A node has 1,024 pending requests at most, and each waits for
/// one round or one fetch at a time.
pub const MOST_OWED: usize = 1024;

/// What a step ends.
#[derive(Clone, Copy, Debug, PartialEq, Eq)]
pub enum Ends {
    /// A round of queries, whose time is over.
    Round,
    /// A fetch, which counts as failed: its response is lost.
    Fetch,
}

/// A step that found no memory.
#[derive(Clone, Copy, Debug, PartialEq, Eq)]
pub struct OwedStep {
    /// The serial of the round or the fetch.
    pub serial: u32,
    /// What the step ends.
    pub ends: Ends,
}

/// The steps that found no memory and are to be taken again, in the order in which they were noted.
/// A serial stands there once at most. To note one takes no memory, since it has room for all from
/// the start.
///
/// A contract sees the list of steps, at most 1,024.
#[derive(Drop)]
pub struct OwedSteps {
    steps: Vec<OwedStep>,
}

impl Model for OwedSteps {
    ghost use Rattle.std.specs.Prelude.{◌≤◌, List, length};
    ghost use Rattle.std.specs.Vec.{vec_capacity};
    ghost use Rattle.cluster_waiting.specs.declared.owed.OwedStep.{OwedStep};
    ghost use Rattle.cluster_waiting.specs.Owed.{AreApart};

    ghost Value = { List OwedStep };

    ghost view = { λ o. o.steps.items };

    ghost invariant = { λ o. AreApart o.steps.items × (length o.steps.items ≤ 1024)
        × (1024 ≤ vec_capacity o.steps) };
}

impl OwedSteps {
    /// No step is owed. `AllocError` comes where there is no memory for 1,024.
    pub fn new(alloc: Global) -> Result<OwedSteps, AllocError>
        ensures { IfOk result (λ owed. owed ≡ []) }
    {
        Ok(OwedSteps {
            steps: Vec::with_capacity(alloc, MOST_OWED)?,
        })
    }

    /// Notes a step behind the others. Nothing changes where one with its serial stands there, or
    /// where 1,024 do.
    pub fn note(&mut self, step: OwedStep)
        ensures { self.new ≡ noted self.old step }
    {
        if has_serial(self.steps.as_slice(), step.serial) {
            return;
        }
        if self.steps.len() >= MOST_OWED {
            return;
        }
        self.steps.push_reserved(step);
    }

    /// Takes out the step that was noted first. There is none only where none is owed.
    pub fn take(&mut self) -> Option<OwedStep>
        ensures { TakesOwed self.old result self.new }
    {
        if self.steps.is_empty() {
            return None;
        }
        Some(self.steps.remove(0))
    }
}

/// Whether one of these steps has this serial.
fn has_serial(steps: &[OwedStep], serial: u32) -> bool
    ensures { result ≡ stands_in steps.now serial }
{
    steps.iter().any(|step| step.serial == serial)
}
