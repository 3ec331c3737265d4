//! What the lock of a shared node holds.
ghost use Rattle.std.specs.Prelude.{◌≡◌, [], Some, None, IfOk, IfSome, IsFalse, OnErr};
ghost use Rattle.node_bytes.specs.Stepping.{AnswersAsk};
ghost use Rattle.node_seats.specs.Beginning.{beginning_of};
ghost use Rattle.node_seats.specs.Desks.{AreNewSteps, HasRoom, IsEndedIn, IsLastTold};
ghost use Rattle.node_seats.specs.Desks.{IsWithoutBook, held_of, with_page_filed};
ghost use Rattle.node_seats.specs.Records.{IsEndOf, keeps, taken_from};
ghost use Rattle.node_seats.specs.Seats.{Called, IsNext};

use crate::entering::{Outcome, Told, enter_alone, enter_recorded};
use crate::places::Places;
use crate::retention::Retention;
use crate::seat::{NodeRun, Seat};
use crate::steps::Steps;
use crate::weight::octets_of;
use crate::whole::Whole;
use floor_rules::FloorStore;
use node_book::{NodeBook, Record};
use node_core::Node;
use node_rules::{Event, StepFault};
use std::alloc::{AllocError, Global};
use std::marker::Model;

/// Once the events of a page have brought this many octets along, the page is full. This bounds
/// what its entries keep in memory.
const MOST_OCTETS: u64 = 4_194_304;

/// A node with its history, and with the record that is kept for a check.
///
/// A contract sees all but the counter of places.
pub(crate) struct Desk<S: FloorStore, J: NodeRun> {
    /// The node, and its book if its steps are recorded. None once an entry could not be added to
    /// the history, which never happens.
    pub(crate) steps: Option<Steps<S>>,
    /// The whole history.
    pub(crate) whole: Whole<J>,
    /// Where each call draws its place.
    pub(crate) places: Places,
    /// How many octets the events of the open page have brought along.
    pub(crate) octets: u64,
    /// What becomes of the record.
    pub(crate) retention: Retention,
    /// How many pages of the book are full.
    pub(crate) pages: u32,
}

impl<S: FloorStore + Drop, J: NodeRun> Drop for Desk<S, J> {
    fn drop(self) {
        let Desk {
            steps: _,
            whole: _,
            places: _,
            octets: _,
            retention: _,
            pages: _,
        } = self;
    }
}

impl<S: FloorStore, J: NodeRun> Model for Desk<S, J> {
    ghost use Rattle.std.specs.Coded.{codes};
    ghost use Rattle.floor_rules.specs.Coded.{floors_code};
    ghost use Rattle.node_seats.specs.Desks.{DeskView};
    ghost use Rattle.node_seats.specs.Records.{Stands};

    ghost Value = { DeskView S };

    ghost coded = { Prim.hlevel (codes, floors_code) };

    ghost view = { λ desk. record {
      log = desk.whole;
      steps = desk.steps;
      pages = desk.pages;
      octets = desk.octets;
      retention = desk.retention;
    } };

    ghost invariant = { λ desk. Stands J.beginning desk.whole desk.steps };
}

impl<S: FloorStore + Drop, J: NodeRun> Desk<S, J> {
    /// A node under a desk, before its first step.
    pub(crate) fn new(
        alloc: Global,
        node: Node<(), S>,
        whole: Whole<J>,
        places: Places,
        retention: Retention,
    ) -> Result<Desk<S, J>, AllocError>
        requires none { whole ≡ [] }
        requires beginning { J.beginning ≡ Some (beginning_of node) }
    {
        let steps = new_steps(alloc, node, retention)?;
        Ok(Desk {
            steps: Some(steps),
            whole,
            places,
            octets: 0,
            retention,
            pages: 0,
        })
    }

    /// Makes one call by a seat: takes a step, and adds its entry to the history. Where the open
    /// page is full, the next page begins before the call.
    ///
    /// Faults: those of the step. `NoMemory` also comes where there is no memory for the entry, and
    /// no step is taken then. Where there is none for a copy of the reply, all pages are dropped,
    /// none is kept from then on, and the reply itself is returned.
    pub(crate) fn call(&mut self, seat: &mut Seat<J>, event: Event<()>) -> Outcome
        ensures called { Called seat.old event result seat.new }
        ensures asks { IfOk result (AnswersAsk event) }
    {
        if !self.whole.is_next(seat) {
            return Err(StepFault::Closed);
        }
        if self.is_full() {
            self.end_page();
        }
        self.enter(seat, event)
    }

    /// Whether the open page has no room for another entry.
    fn is_full(&self) -> bool
        ensures { IsFalse result → HasRoom self.now.octets self.now.steps }
    {
        match &self.steps {
            Some(Steps::Recorded(book)) => MOST_OCTETS <= self.octets || book.is_full(),
            Some(Steps::Alone(_)) | None => false,
        }
    }

    /// Takes the step of a call, and adds its entry to the history. Where the reply cannot be
    /// copied, the pages are dropped for it.
    fn enter(&mut self, seat: &mut Seat<J>, event: Event<()>) -> Outcome
        requires next { IsNext self.old.log seat.old }
        requires room { HasRoom self.old.octets self.old.steps }
        ensures called { Called seat.old event result seat.new }
        ensures asks { IfOk result (AnswersAsk event) }
    {
        let place = self.places.draw();
        match &mut self.steps {
            Some(Steps::Recorded(book)) => {
                book.is_replayed();
                self.octets += octets_of(&event);
                match enter_recorded(book, &mut self.whole, seat, place, event) {
                    Some(Told::Copied(outcome)) => return outcome,
                    Some(Told::InBook) => return self.forget_but_last(),
                    None => {}
                }
            }
            Some(Steps::Alone(node)) => {
                if let Some(told) = enter_alone(node, &mut self.whole, seat, place, event) {
                    return told;
                }
            }
            None => {}
        }
        self.steps = None;
        Err(StepFault::Closed)
    }

    /// Drops all pages, and keeps none from then on. Returns the outcome of the last entry, moved
    /// out of it. It takes no memory.
    fn forget_but_last(&mut self) -> Outcome
        ensures last { IsLastTold self.old.steps result }
        ensures alone { IsWithoutBook self.old.steps self.new.steps }
        ensures same { self.new.log ≡ self.old.log }
    {
        self.retention = Retention::Dropped;
        self.octets = 0;
        match self.steps.take() {
            Some(Steps::Recorded(book)) => {
                let (node, last) = book.into_node_and_last();
                self.steps = Some(Steps::Alone(node));
                last.unwrap_or(Err(StepFault::NoMemory))
            }
            other => {
                self.steps = other;
                Err(StepFault::NoMemory)
            }
        }
    }

    /// Ends the open page and begins the next one; or, where it would not be kept, drops all pages
    /// and keeps none from then on.
    fn end_page(&mut self)
        ensures room { HasRoom self.new.octets self.new.steps }
        ensures same { self.new.log ≡ self.old.log }
    {
        if !is_kept(self.retention, self.pages) {
            self.forget();
            return;
        }
        file_page(&mut self.steps);
        self.pages += 1;
        self.octets = 0;
    }

    /// Drops all pages, and keeps none from then on.
    fn forget(&mut self)
        ensures room { HasRoom self.new.octets self.new.steps }
        ensures same { self.new.log ≡ self.old.log }
        ensures none { (held_of self.new).kept ≡ None }
    {
        self.steps = without_book(self.steps.take());
        self.retention = Retention::Dropped;
        self.octets = 0;
    }

    /// Takes out the record of all pages, and begins the next one; or takes none, where none is
    /// kept. It copies the node's state twice. Where there is no memory for that, nothing changes.
    pub(crate) fn take_record(&mut self) -> Result<Option<Record>, AllocError>
        ensures taken { IfOk result (λ taken. taken ≡ (held_of self.old).kept) }
        ensures next { IfOk result (λ _. held_of self.new ≡ taken_from (held_of self.old)) }
        ensures end { IfOk result (λ taken. IfSome taken (IsEndOf J.beginning self.old.log)) }
        ensures empty { IfOk result (λ taken. IfSome taken (λ _. (self.new.pages ≡ 0)
            × (self.new.octets ≡ 0)
            × (self.new.retention ≡ self.old.retention))) }
        ensures same { OnErr result (self.new ≡ self.old) }
    {
        if !is_kept(self.retention, self.pages) {
            self.forget();
            return Ok(None);
        }
        let taken = end_record(&mut self.steps)?;
        self.pages = 0;
        self.octets = 0;
        Ok(taken)
    }
}

/// A node before its first step, with a book if its steps are recorded.
fn new_steps<S: FloorStore + Drop>(
    alloc: Global,
    node: Node<(), S>,
    retention: Retention,
) -> Result<Steps<S>, AllocError>
    ensures { IfOk result (AreNewSteps node) }
{
    match retention {
        Retention::Dropped => Ok(Steps::Alone(node)),
        Retention::UpTo(_) => match NodeBook::open(alloc, node) {
            Ok(book) => Ok(Steps::Recorded(book)),
            Err(_) => Err(AllocError),
        },
    }
}

/// Files the open page, if there is a book.
fn file_page<S: FloorStore>(steps: &mut Option<Steps<S>>)
    ensures { steps.new ≡ with_page_filed steps.old }
{
    if let Some(Steps::Recorded(book)) = steps {
        book.file_page();
    }
}

/// Takes out the record of the book, if there is one. Where there is no memory for that, nothing
/// changes.
fn end_record<S: FloorStore>(steps: &mut Option<Steps<S>>) -> Result<Option<Record>, AllocError>
    ensures ended { IfOk result (λ taken. IsEndedIn steps.old taken steps.new) }
    ensures same { OnErr result (steps.new ≡ steps.old) }
{
    match steps {
        Some(Steps::Recorded(book)) => Ok(Some(book.end_record()?)),
        Some(Steps::Alone(_)) | None => Ok(None),
    }
}

/// The node without its book, if it has one.
fn without_book<S: FloorStore>(steps: Option<Steps<S>>) -> Option<Steps<S>>
    ensures { IsWithoutBook steps result }
{
    match steps {
        Some(Steps::Recorded(book)) => Some(Steps::Alone(book.into_node())),
        other => other,
    }
}

/// Whether one page more is kept beside this many.
fn is_kept(retention: Retention, kept: u32) -> bool
    ensures { result ≡ keeps retention kept }
{
    match retention {
        Retention::UpTo(most) => kept < most,
        Retention::Dropped => false,
    }
}
