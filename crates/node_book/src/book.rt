ghost use Rattle.std.specs.Prelude.{◌≡◌, ◌⊎◌, ◌<◌, ◌≤◌, ◌+◌, [], length, IsTrue, IsFalse, IfOk};
ghost use Rattle.std.specs.Prelude.{IfErr, Ok, Err};
ghost use Rattle.std.specs.Vec.{vec_len, vec_capacity};
ghost use Rattle.floor_rules.specs.Store.{HaveRisen};
ghost use Rattle.node_book.specs.Book.{IsApplied, IsLastOutcome, IsReplayed, IsToldOf};
ghost use Rattle.node_book.specs.declared.book.BookFault.TheVariants as faults;
ghost use Rattle.node_book.specs.Closed.{IsRecorded};
ghost use Rattle.node_bytes.specs.Stepping.{AnswersAsk};

use crate::Record;
use floor_rules::FloorStore;
use node_bytes::Stepper;
use node_copies::{copy_of_event, copy_of_reply};
use node_core::Node;
use node_rules::{Event, NodeState, Reply, StepFault};
use roster::Listed;
use std::alloc::{AllocError, Global};
use std::marker::Model;
use std::mem::replace;
use thiserror::Error;

/// The most entries of a page.
pub const MOST_ENTRIES: usize = 4096;

/// A step of a node, with its outcome.
pub struct NodeEntry {
    /// The seat that called, a number of the caller's.
    pub seat: u8,
    /// The place of the step in the run, a number of the caller's.
    pub place: u64,
    /// The event.
    pub event: Event<()>,
    /// The reply of the step, or its fault.
    pub outcome: Result<Reply<()>, StepFault>,
}

impl Drop for NodeEntry {
    fn drop(self) {
        let NodeEntry {
            seat: _,
            place: _,
            event: _,
            outcome: _,
        } = self;
    }
}

impl NodeEntry {
    /// The outcome alone.
    pub(crate) fn into_outcome(self) -> Result<Reply<()>, StepFault>
        ensures { result ≡ self.outcome }
    {
        let NodeEntry {
            seat: _,
            place: _,
            event: _,
            outcome,
        } = self;
        outcome
    }
}

/// Why an event was not applied, or its reply was not returned.
#[derive(Clone, Copy, Debug, PartialEq, Eq, Hash, Error)]
pub enum BookFault {
    /// The open page has 4,096 entries. Nothing is entered, and nothing changes.
    #[error("the page is full")]
    ShiftFull,
    /// The step was refused. It is entered with its fault.
    #[error("the step was refused")]
    Step(StepFault),
    /// There was no memory for an entry. Nothing is entered, and nothing changes.
    #[error("there was no memory for an entry")]
    NoMemory,
    /// The step stands, but there was no memory for a copy of its reply. The last entry has it.
    #[error("there was no memory for the reply")]
    ReplyLost,
}

/// A node with a book of its steps.
///
/// The entries stand on pages of 4,096 at most. Filing a page takes neither time nor memory.
///
/// A contract sees the node, its state when the book was opened, the entries, and how many of them
/// are on pages that were filed.
pub struct NodeBook<S: FloorStore> {
    alloc: Global,
    node: Node<(), S>,
    opening: NodeState<()>,
    entries: Vec<NodeEntry>,
    filed: usize,
}

impl<S: FloorStore + Drop> Drop for NodeBook<S> {
    fn drop(self) {
        let NodeBook {
            alloc: _,
            node: _,
            opening: _,
            entries: _,
            filed: _,
        } = self;
    }
}

impl<S: FloorStore> Model for NodeBook<S> {
    ghost use Rattle.std.specs.Coded.{codes, coded_list, coded_ℕ};
    ghost use Rattle.std.specs.FinMap.{code as map_code};
    ghost use Rattle.std.specs.Ordering.{nat_cmp};
    ghost use Rattle.std.specs.Cmp.Lexicographic.{slice_cmp};
    ghost use Rattle.node_book.specs.Book.{BookView, IsBook};

    ghost Value = { BookView S };

    ghost coded = { Prim.hlevel (
      codes,
      map_code {R = slice_cmp nat_cmp} (coded_list coded_ℕ) coded_ℕ,
    ) };

    ghost view = { λ b. record {
      node = b.node;
      opening = b.opening;
      entries = b.entries.items;
      filed = b.filed;
    } };

    ghost invariant = { λ b. IsBook b.node.roster b.node.id b.node.state b.opening b.entries.items
        b.filed };
}

impl<S: FloorStore> NodeBook<S> {
    /// Opens a book without entries. It copies the node's state; if there is no memory for the
    /// copy, the node comes back.
    pub fn open(alloc: Global, node: Node<(), S>) -> Result<NodeBook<S>, (Node<(), S>, AllocError)>
        ensures opened { IfOk result (λ book.
            book ≡ record { node = node; opening = node.state; entries = []; filed = 0 }) }
        ensures given_back { IfErr result (λ refused. refused.0 ≡ node) }
    {
        match node.state() {
            Ok(opening) => Ok(NodeBook {
                alloc,
                node,
                opening,
                entries: Vec::new(alloc),
                filed: 0,
            }),
            Err(fault) => Err((node, fault)),
        }
    }

    /// Takes a step of the node with this event, and enters it with this seat, this place and its
    /// outcome. Returns a copy of the reply.
    ///
    /// A request is served at once, and the step does nothing else; or it waits for what the step
    /// begins.
    ///
    /// Faults that enter nothing and change nothing: `ShiftFull` exactly if the open page is full,
    /// tested first; `NoMemory` if there is no memory for an entry. Faults that are entered: `Step`
    /// with the fault of the step; `ReplyLost` if the reply could not be copied, so that only the
    /// last entry has it ([`NodeBook::into_node_and_last`] gives it).
    pub fn apply(&mut self, seat: u8, place: u64, event: Event<()>) -> Result<Reply<()>, BookFault>
        ensures full { self.old.filed + 4096 ≤ length self.old.entries →
            (result ≡ Err faults.ShiftFull) × (self.new ≡ self.old) }
        ensures full_only { result ≡ Err faults.ShiftFull →
            length self.old.entries ≡ self.old.filed + 4096 }
        ensures applied { length self.old.entries < self.old.filed + 4096 →
            (result ≡ Err faults.NoMemory)
            × (self.new ≡ self.old)
            ⊎ IsApplied (S.is_honest self.new.node.store) (S.may_find self.new.node.store)
            (HaveRisen (S.failed self.old.node.store) (S.failed self.new.node.store))
            self.old self.new seat place event result }
        ensures asks { IfOk result (AnswersAsk event) }
    {
        match room_for(self.alloc, &mut self.entries, self.filed, &event) {
            Ok(entered) => {
                let (entry, told) = stepped(
                    self.alloc,
                    &mut self.node,
                    seat,
                    place,
                    event,
                    entered,
                );
                self.entries.push_reserved(entry);
                told
            }
            Err(fault) => Err(fault),
        }
    }

    /// Whether the open page has 4,096 entries, so that no step can be entered until it is filed.
    pub fn is_full(&self) -> bool
        ensures full { IsTrue result → self.now.filed + 4096 ≤ length self.now.entries }
        ensures room { IsFalse result → length self.now.entries < self.now.filed + 4096 }
    {
        has_full_page(self.entries.as_slice(), self.filed)
    }

    /// Files the open page. The next one has no entries.
    pub fn file_page(&mut self)
        ensures { self.new ≡ record self.old { filed = length self.old.entries } }
    {
        self.filed = self.entries.len();
    }

    /// The entries since the book was opened, those of all pages.
    pub fn entries(&self) -> &[NodeEntry]
        ensures value { result.now ≡ self.now.entries }
        ensures most { length self.now.entries ≤ self.now.filed + 4096 }
    {
        self.entries.as_slice()
    }

    /// Closes the book, and returns the node and the record of its steps. It copies the node's
    /// state; if there is no memory for the copy, the book comes back.
    pub fn close(self) -> Result<(Node<(), S>, Record), (NodeBook<S>, AllocError)>
        ensures closed { IfOk result (λ done. (done.0 ≡ self.node) × IsRecorded self done.1) }
        ensures given_back { IfErr result (λ refused. refused.0 ≡ self) }
    {
        match self.node.state() {
            Ok(closing) => {
                let NodeBook {
                    alloc: _,
                    node,
                    opening,
                    entries,
                    filed: _,
                } = self;
                let record = Record {
                    node: node.id(),
                    opening,
                    entries: Listed::new(entries),
                    closing,
                };
                Ok((node, record))
            }
            Err(fault) => Err((self, fault)),
        }
    }

    /// Ends the record: returns the record of the steps so far, and goes on without entries at the
    /// node's state. It copies that state twice; if there is no memory for that, nothing changes.
    pub fn end_record(&mut self) -> Result<Record, AllocError>
        ensures ended { IfOk result (λ done. IsRecorded self.old done
            × (self.new ≡ record {
              node = self.old.node;
              opening = self.old.node.state;
              entries = [];
              filed = 0;
            })) }
        ensures same { IfErr result (λ _. self.new ≡ self.old) }
    {
        let closing = self.node.state()?;
        let next = self.node.state()?;
        let entries = replace(&mut self.entries, Vec::new(self.alloc));
        self.filed = 0;
        Ok(Record {
            node: self.node.id(),
            opening: replace(&mut self.opening, next),
            entries: Listed::new(entries),
            closing,
        })
    }

    /// The node, without its book.
    pub fn into_node(self) -> Node<(), S>
        ensures node { result ≡ self.node }
        ensures replayed { IsReplayed self }
    {
        let NodeBook {
            alloc: _,
            node,
            opening: _,
            entries: _,
            filed: _,
        } = self;
        node
    }

    /// The node, without its book, and the outcome of the last entry; None if there is no entry. It
    /// takes no memory.
    pub fn into_node_and_last(self) -> (Node<(), S>, Option<Result<Reply<()>, StepFault>>)
        ensures node { result.0 ≡ self.node }
        ensures last { IsLastOutcome self.entries result.1 }
        ensures replayed { IsReplayed self }
    {
        let NodeBook {
            alloc: _,
            node,
            opening: _,
            mut entries,
            filed: _,
        } = self;
        match entries.pop() {
            Some(entry) => (node, Some(entry.into_outcome())),
            None => (node, None),
        }
    }

    /// The entries lead from the opening state to the node's state. It does nothing: its contract
    /// states the law.
    pub fn is_replayed(&self)
        ensures { IsReplayed self.now }
    {
        // (a function knows the invariant of a value of which it uses a field)
        let _ = &self.alloc;
    }

    /// The node.
    pub fn node(&self) -> &Node<(), S>
        ensures { result.now ≡ self.now.node }
    {
        &self.node
    }
}

/// Whether the page behind so many filed entries has 4,096 entries.
fn has_full_page(entries: &[NodeEntry], filed: usize) -> bool
    requires { filed ≤ length entries.now }
    ensures full { IsTrue result → filed + 4096 ≤ length entries.now }
    ensures room { IsFalse result → length entries.now < filed + 4096 }
{
    MOST_ENTRIES <= entries.len() - filed
}

/// Makes room for one more entry on the page behind so many filed entries, and copies the event for
/// it.
fn room_for(
    alloc: Global,
    entries: &mut Vec<NodeEntry>,
    filed: usize,
    event: &Event<()>,
) -> Result<Event<()>, BookFault>
    requires { filed ≤ vec_len entries.old }
    ensures full { filed + 4096 ≤ vec_len entries.old → result ≡ Err faults.ShiftFull }
    ensures few { vec_len entries.old < filed + 4096 →
        IfErr result (λ fault. fault ≡ faults.NoMemory) }
    ensures copy { IfOk result (λ copy. copy ≡ event.now) }
    ensures room { IfOk result (λ _. (vec_len entries.old < filed + 4096)
        × (vec_len entries.new < vec_capacity entries.new)) }
    ensures same { entries.new.items ≡ entries.old.items }
{
    if has_full_page(entries.as_slice(), filed) {
        return Err(BookFault::ShiftFull);
    }
    if entries.reserve(1).is_err() {
        return Err(BookFault::NoMemory);
    }
    copy_of_event(alloc, event).map_err(|_| BookFault::NoMemory)
}

/// Takes a step with this event. Returns its entry, made of a copy of the event, and what the
/// caller is told.
fn stepped<N: Stepper>(
    alloc: Global,
    node: &mut N,
    seat: u8,
    place: u64,
    event: Event<()>,
    entered: Event<()>,
) -> (NodeEntry, Result<Reply<()>, BookFault>)
    requires same { entered ≡ event }
    ensures entry { result.0 ≡ record {
      seat = seat;
      place = place;
      event = event;
      outcome =
          result.0.outcome;
    } }
    ensures takes { N.takes node.old event result.0.outcome node.new }
    ensures told { IsToldOf result.0.outcome result.1 }
    ensures asks { IfOk result.0.outcome (AnswersAsk event) }
{
    let outcome = node.step(event);
    let told = told_of(alloc, &outcome);
    let entry = NodeEntry {
        seat,
        place,
        event: entered,
        outcome,
    };
    (entry, told)
}

/// What the caller is told of an outcome: a copy of its reply, or its fault.
fn told_of(alloc: Global, outcome: &Result<Reply<()>, StepFault>) -> Result<Reply<()>, BookFault>
    ensures { IsToldOf outcome.now result }
{
    match outcome {
        Ok(reply) => told_reply(alloc, reply),
        Err(fault) => Err(BookFault::Step(*fault)),
    }
}

/// Copies a reply, or says that it is lost.
fn told_reply(alloc: Global, reply: &Reply<()>) -> Result<Reply<()>, BookFault>
    ensures { (result ≡ Ok reply.now) ⊎ (result ≡ Err faults.ReplyLost) }
{
    copy_of_reply(alloc, reply).map_err(|_| BookFault::ReplyLost)
}
