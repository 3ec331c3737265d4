//! What threads know of the queue: the order of its steps. These types are for contracts; no value
//! of them is made.
use crate::job::{Job, Sender};
use cluster_fetch::Fetched;
use crossbeam_queue::protocol::{Lesson, Outcome, Protocol};
use std::collections::LinkedList;
use values_history::Entry;
use values_plain::{Address, Udp};

/// A job as contracts see it: of a stream, its number alone.
pub enum Sight {
    Datagram(Sender, Udp, Address, LinkedList<u8>),
    Stream(u64),
    Timer(u32),
    Fetched(Fetched),
    Failed(u32),
}

/// One step of the queue: a job was put, or a job was taken.
pub enum Step {
    Put(Sight),
    Took(Sight),
}

/// What a pass knows: the steps that it has seen, and its own steps among them.
pub struct View {
    /// The steps that it has seen, in the order in which they happened.
    pub seen: LinkedList<Step>,
    /// Its own steps among them.
    pub own: LinkedList<Step>,
}

/// The step of a job that is put.
pub(crate) struct Puts;

impl Entry<Job, Step> for Puts {
    ghost use Rattle.cluster_jobs.specs.Order.{put};

    ghost of = { put };
}

/// The step of a job that is taken.
pub(crate) struct Takes;

impl Entry<Job, Step> for Takes {
    ghost use Rattle.cluster_jobs.specs.Order.{took};

    ghost of = { took };
}

/// The jobs that wait, the one that has waited longest first.
pub(crate) type Waiting = LinkedList<Sight>;

/// The rule of the queue in which the jobs wait: it has one pass, which knows exactly these jobs.
pub(crate) struct Exact;

impl Protocol<Job, Waiting> for Exact {
    ghost use Rattle.std.specs.Prelude.{[]};
    ghost use Rattle.cluster_jobs.specs.Order.{IsKnown};

    ghost holds = { IsKnown };

    ghost first = { [] };
}

impl Outcome<Job, Waiting> for Puts {
    ghost use Rattle.cluster_jobs.specs.Order.{Joins};

    ghost then = { Joins };
}

impl Lesson<Job, Waiting> for Puts {
    ghost use Rattle.cluster_jobs.specs.Order.{Are};

    ghost fact = { Are };
}

impl Outcome<Job, Waiting> for Takes {
    ghost use Rattle.cluster_jobs.specs.Order.{Goes};

    ghost then = { Goes };
}

impl Lesson<Job, Waiting> for Takes {
    ghost use Rattle.cluster_jobs.specs.Order.{Are};

    ghost fact = { Are };
}
