//! A step of a node, with its entry in the history.
ghost use Rattle.std.specs.Prelude.{◌≡◌, ◌<◌, ◌+◌, length, IfOk, IfSome, IfNone};
ghost use Rattle.floor_rules.specs.Store.{HaveRisen};
ghost use Rattle.node_bytes.specs.Stepping.{AnswersAsk};
ghost use Rattle.node_seats.specs.Beginning.{LeadsToNode};
ghost use Rattle.node_seats.specs.Seats.{Called, IsNext};
ghost use Rattle.node_seats.specs.Desks.{IsCalledIn, IsEnteredIn, IsTakenIn};

use crate::kept::Kept;
use crate::seat::{NodeRun, Seat};
use crate::whole::Whole;
use floor_rules::FloorStore;
use node_book::{BookFault, NodeBook, NodeEntry};
use node_bytes::Stepper;
use node_core::Node;
use node_rules::{Event, Reply, StepFault};
use values_history::{Entry, Itself};

/// What a seat is told of a step.
pub(crate) type Outcome = Result<Reply<()>, StepFault>;

/// What is told of a step that is entered in a book.
#[derive(Drop)]
pub(crate) enum Told {
    /// Its outcome.
    Copied(Outcome),
    /// There was no memory for a copy of its reply. The last entry of the book has it.
    InBook,
}

/// Takes a step and enters it in the book. Returns what is told of it; None where there is no
/// memory for the entry, and no step is taken then.
fn apply<S: FloorStore>(
    book: &mut NodeBook<S>,
    seat: u8,
    place: u64,
    event: Event<()>,
) -> Option<Told>
    requires room { length book.old.entries < book.old.filed + 4096 }
    ensures taken { IfSome result (IsTakenIn (S.is_honest book.new.node.store)
        (S.may_find book.new.node.store)
        (HaveRisen (S.failed book.old.node.store) (S.failed book.new.node.store))
        book.old book.new seat event) }
    ensures none { IfNone result (book.new ≡ book.old) }
{
    match book.apply(seat, place, event) {
        Ok(reply) => Some(Told::Copied(Ok(reply))),
        Err(BookFault::Step(fault)) => Some(Told::Copied(Err(fault))),
        Err(BookFault::ReplyLost) => Some(Told::InBook),
        Err(BookFault::NoMemory) | Err(BookFault::ShiftFull) => None,
    }
}

/// Takes a step that is entered in the book and in the history. Returns what is told of it; None
/// where the entry could not be added to the history, which never happens.
pub(crate) fn enter_recorded<S: FloorStore, J: NodeRun>(
    book: &mut NodeBook<S>,
    whole: &mut Whole<J>,
    seat: &mut Seat<J>,
    place: u64,
    event: Event<()>,
) -> Option<Told>
    requires next { IsNext whole.old seat.old }
    requires leads { LeadsToNode J.beginning whole.old book.old.node }
    requires room { length book.old.entries < book.old.filed + 4096 }
    ensures called { IfSome result (IsCalledIn book.new seat.old event seat.new) }
    ensures entered { IfSome result (λ _. IsEnteredIn book.old book.new whole.old whole.new) }
    ensures lost { IfNone result (seat.new ≡ seat.old) }
{
    let entered = book.entries().len();
    let Some(told) = apply(book, seat.number, place, event) else {
        return Some(Told::Copied(Err(StepFault::NoMemory)));
    };
    if !whole.add::<NodeEntry, Itself>(seat, &book.entries()[entered]) {
        return None;
    }
    Some(told)
}

/// A step that was taken, of which no entry is kept. Its event was moved on: only proofs have it.
struct StepTaken {
    seat: u8,
    place: u64,
    event: Kept<Event<()>>,
    outcome: Outcome,
}

impl Drop for StepTaken {
    fn drop(self) {
        let StepTaken {
            seat: _,
            place: _,
            event: _,
            outcome: _,
        } = self;
    }
}

impl StepTaken {
    /// The outcome alone.
    fn into_outcome(self) -> Outcome
        ensures { result ≡ self.outcome }
    {
        let StepTaken {
            seat: _,
            place: _,
            event: _,
            outcome,
        } = self;
        outcome
    }
}

/// The entry of a step that was taken.
struct Entered;

impl Entry<StepTaken, NodeEntry> for Entered {
    ghost of = { λ taken. record {
      seat = taken.seat;
      place = taken.place;
      event = taken.event;
      outcome = taken.outcome;
    } };
}

/// Takes a step that is entered in the history alone, so that nothing of it is kept. Returns what
/// the seat is told; None where the entry could not be added, which never happens. It takes no
/// memory beside the step.
pub(crate) fn enter_alone<S: FloorStore, J: NodeRun>(
    node: &mut Node<(), S>,
    whole: &mut Whole<J>,
    seat: &mut Seat<J>,
    place: u64,
    event: Event<()>,
) -> Option<Outcome>
    requires next { IsNext whole.old seat.old }
    requires leads { LeadsToNode J.beginning whole.old node.old }
    ensures called { IfSome result (λ told. Called seat.old event told seat.new) }
    ensures asks { IfSome result (λ told. IfOk told (AnswersAsk event)) }
    ensures leads { IfSome result (λ _. LeadsToNode J.beginning whole.new node.new) }
    ensures lost { IfNone result (seat.new ≡ seat.old) }
{
    let kept = Kept::of(&event)?;
    let outcome = Stepper::step(node, event);
    let taken = StepTaken {
        seat: seat.number,
        place,
        event: kept,
        outcome,
    };
    if !whole.add::<StepTaken, Entered>(seat, &taken) {
        return None;
    }
    Some(taken.into_outcome())
}
