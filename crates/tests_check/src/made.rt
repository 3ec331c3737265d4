//! What is kept of a run, made by hand.
use crate::events::{A, Called, MASTER, Met, Url, call_of, event_of};
use floor_rules::Floors;
use htcp_wire::{Content, Htcp};
use node_book::{NodeEntry, Record};
use node_rules::{Message, NodeState, Outgoing, Reply, Sent, Serve, Served, StepFault, fits};
use purge_master::MasterEntry;
use purge_rules::{MasterAnswer, MasterFault, Status};
use roster::Listed;
use std::alloc::Global;
use std::test::Fail;
use tests_kit::key_of;

/// What a step led to.
#[derive(Clone, Copy)]
pub(crate) enum Said {
    /// Nothing is served, sent or begun.
    Nothing,
    /// A bare status is served to the client that asks.
    Status(u16),
    /// A bare status is served to this member, which asks.
    StatusTo(u8, u16),
    /// The CLR of number 1 is answered: no copy was held.
    Acknowledged,
    /// The same of this number.
    Obeyed(u32),
    /// The step has this fault.
    Fault(StepFault),
}

/// What the master answered.
#[derive(Clone, Copy)]
pub(crate) enum Told {
    /// The purge that was issued has this number.
    Issued(u32),
    /// The admission has this number.
    Admitted(u32),
    /// This number is done by it.
    Done(u32),
    /// None is done by it.
    NoneDone,
    /// The number is done.
    IsDone,
    /// There was no such number.
    Unknown,
    /// The call has this fault.
    Fault(MasterFault),
}

/// A step of a node: its place, what the node met, and what that led to.
pub(crate) type Step = (u64, Met, Said);

/// A call of the master: its place, the call, and its answer.
pub(crate) type Call = (u64, Called, Told);

/// A record: of this node, which opens with this floor, has these steps, and closes with this
/// floor, or shuts.
#[derive(Clone, Copy)]
pub(crate) struct Shift(pub u8, pub u32, pub &'static [Step], pub Option<u32>);

/// Floors in which the URL has this number, or none where it is 0.
pub(crate) fn floors_of(alloc: Global, url: Url, number: u32) -> Result<Floors, Fail> {
    let key = key_of(alloc, url)?;
    let mut floors = Floors::new(alloc);
    if number >= 1 {
        floors.raise(alloc, &key, number)?;
    }
    Ok(floors)
}

/// The state of a node that has nothing but these floors, and has taken no block of serials.
pub(crate) fn state_of(alloc: Global, floors: Floors, closed: bool) -> NodeState<()> {
    NodeState {
        floors,
        copies: Listed::new(Vec::new(alloc)),
        pending: Listed::new(Vec::new(alloc)),
        next: 1,
        closed,
    }
}

/// The state of a node that is open with this floor, or has shut.
fn standing(alloc: Global, floor: Option<u32>) -> Result<NodeState<()>, Fail> {
    let floors = floors_of(alloc, A, floor.unwrap_or(0))?;
    Ok(state_of(alloc, floors, floor.is_none()))
}

fn reply_of(serve: Option<Serve<()>>, send: Vec<Outgoing>) -> Reply<()> {
    Reply {
        serve,
        send: Listed::new(send),
        begin: None,
    }
}

/// A bare status is served to this member, or else to the client that asks.
fn status_of(alloc: Global, asker: Option<u8>, status: u16) -> Reply<()> {
    let serve = Serve {
        waiter: None,
        asker,
        served: Served::Status(status),
    };
    reply_of(Some(serve), Vec::new(alloc))
}

/// The CLR of this number is answered: no copy was held.
fn acknowledged(alloc: Global, number: u32) -> Result<Reply<()>, Fail> {
    let message = Message::Htcp(Htcp {
        minor: 0,
        trans: number,
        content: Content::ClrAnswer { code: 2 },
    });
    if !fits(&message) {
        return Err("the message".into());
    }
    let sent = Outgoing {
        to: MASTER,
        message: Sent::new(message),
    };
    Ok(reply_of(None, vec![in alloc; sent]?))
}

fn outcome_of(alloc: Global, said: Said) -> Result<Result<Reply<()>, StepFault>, Fail> {
    Ok(match said {
        Said::Nothing => Ok(reply_of(None, Vec::new(alloc))),
        Said::Status(status) => Ok(status_of(alloc, None, status)),
        Said::StatusTo(member, status) => Ok(status_of(alloc, Some(member), status)),
        Said::Acknowledged => Ok(acknowledged(alloc, 1)?),
        Said::Obeyed(number) => Ok(acknowledged(alloc, number)?),
        Said::Fault(fault) => Err(fault),
    })
}

/// The entry of a step, by seat 1.
fn entry_of(alloc: Global, step: &Step) -> Result<NodeEntry, Fail> {
    let (place, met, said) = *step;
    let event = event_of(alloc, met)?;
    Ok(NodeEntry {
        seat: 1,
        place,
        event,
        outcome: outcome_of(alloc, said)?,
    })
}

fn entries_of(alloc: Global, steps: &[Step]) -> Result<Vec<NodeEntry>, Fail> {
    let mut entries = Vec::new(alloc);
    for step in steps {
        entries.push(entry_of(alloc, step)?)?;
    }
    Ok(entries)
}

fn record_of(alloc: Global, shift: &Shift) -> Result<Record, Fail> {
    let Shift(node, opens, steps, closes) = *shift;
    let opening = standing(alloc, Some(opens))?;
    let closing = standing(alloc, closes)?;
    Ok(Record {
        node,
        opening,
        entries: Listed::new(entries_of(alloc, steps)?),
        closing,
    })
}

pub(crate) fn records_of(alloc: Global, shifts: &[Shift]) -> Result<Vec<Record>, Fail> {
    let mut records = Vec::new(alloc);
    for shift in shifts {
        records.push(record_of(alloc, shift)?)?;
    }
    Ok(records)
}

fn answer_of(told: Told) -> Result<MasterAnswer, MasterFault> {
    match told {
        Told::Issued(number) => Ok(MasterAnswer::Issue(number)),
        Told::Admitted(number) => Ok(MasterAnswer::Admit(number)),
        Told::Done(number) => Ok(MasterAnswer::Acknowledge(Some(number))),
        Told::NoneDone => Ok(MasterAnswer::Acknowledge(None)),
        Told::IsDone => Ok(MasterAnswer::Status(Status::Done)),
        Told::Unknown => Ok(MasterAnswer::Status(Status::Unknown)),
        Told::Fault(fault) => Err(fault),
    }
}

pub(crate) fn calls_of(alloc: Global, calls: &[Call]) -> Result<Vec<MasterEntry>, Fail> {
    let mut entries = Vec::new(alloc);
    for (place, called, told) in calls {
        let call = call_of(alloc, *called)?;
        entries.push(MasterEntry {
            place: *place,
            call,
            answer: answer_of(*told),
        })?;
    }
    Ok(entries)
}
