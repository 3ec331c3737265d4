//! What the lock of a shared master holds: its book, and the pages that were filed.
ghost use Rattle.std.specs.Prelude.{◌≡◌, ◌≢◌, ◌⊎◌, ◌<◌, ◌++◌, [], length, false, IsFalse, Err};
ghost use Rattle.std.specs.Prelude.{IfOk, IfSome, OnOk, OnErr};
ghost use Rattle.htcp_wire.specs.Written.{Fits};
ghost use Rattle.purge_rules.specs.Calls.{missing as missing_of};
ghost use Rattle.purge_rules.specs.Needed.{needed as needed_of};
ghost use Rattle.purge_master.specs.Store.{witness};
ghost use Rattle.purge_rules.specs.declared.fault.MasterFault.TheVariants as faults;
ghost use Rattle.cluster_master.specs.LockedBook.{IsCalledAt, IsUnmade, IsTaken, IsNothingDue};
ghost use Rattle.cluster_master.specs.LockedBook.{is_dropped, is_full_page, keeps};
ghost use Rattle.cluster_master.specs.LockedBook.{may_be_due_after as may_be_due_by, ready, filed};
ghost use Rattle.cluster_master.specs.LockedBook.{emptied};
ghost use Rattle.cluster_master.specs.Answers.{IsToldOf, IsClearOf};
ghost use Rattle.cluster_master.specs.Settled.{settled};

use crate::weight::{added_weight, answer_octets, call_octets};
use htcp_wire::Htcp;
use node_seats::Places;
use purge_master::{MOST_ENTRIES, MasterBook, MasterEntry};
use purge_rules::{MasterAnswer, MasterCall, MasterFault, MemberSet, PurgeStore, Purges};
use std::alloc::{AllocError, Global};
use std::marker::Model;
use std::mem::replace;

/// What becomes of the entries of a page that is filed.
#[derive(Clone, Copy, Debug, PartialEq, Eq)]
pub enum KeptEntries {
    /// They are kept until they are taken, while those that are kept weigh less than this
    /// ([`weight_of_all`](crate::weight_of_all)). Where a page would come after that, all of them
    /// are dropped, and none is kept from then on.
    UpTo(u32),
    /// They are dropped.
    Dropped,
}

/// Once the entries of a page weigh so much, it is full. This bounds what they take in memory.
const MOST_WEIGHT: u64 = 4_096;

/// Whether a page is kept behind entries that weigh so much.
fn has_place(to_keep: KeptEntries, kept: u64) -> bool
    ensures { result ≡ keeps to_keep kept }
{
    match to_keep {
        KeptEntries::UpTo(most) => kept < u64::from(most),
        KeptEntries::Dropped => false,
    }
}

/// Whether a CLR may be due after an answer. None is due once the answer is that nothing is due, or
/// that the master is closed, which it stays. One may be due from the next number or response on.
fn may_be_due_after(answer: &Result<MasterAnswer, MasterFault>, was: bool) -> bool
    ensures { result ≡ may_be_due_by answer.now was }
{
    match answer {
        Ok(MasterAnswer::Due(pairs)) => !pairs.as_slice().is_empty(),
        Ok(MasterAnswer::Status(_)) => was,
        Ok(MasterAnswer::Issue(_) | MasterAnswer::Admit(_) | MasterAnswer::Acknowledge(_)) => true,
        Err(MasterFault::Closed) => false,
        Err(_) => was,
    }
}

/// A master's book, the entries of the pages that were filed, and whether a CLR may be due. Where
/// none may be due, none is.
pub(crate) struct LockedBook<S: PurgeStore> {
    pub(crate) alloc: Global,
    /// The master, and the open page of its calls.
    pub(crate) book: MasterBook<S>,
    /// What the entries of the open page weigh.
    pub(crate) weight: u64,
    /// The entries of the pages that were filed.
    pub(crate) kept: Vec<MasterEntry>,
    /// What these weigh.
    pub(crate) kept_weight: u64,
    /// What becomes of the entries of a page that is filed.
    pub(crate) to_keep: KeptEntries,
    /// Whether a CLR may be due.
    pub(crate) may_be_due: bool,
    /// Where each call draws its place.
    pub(crate) places: Places,
}

impl<S: PurgeStore + Drop> Drop for LockedBook<S> {
    fn drop(self) {
        let LockedBook {
            alloc: _,
            book: _,
            weight: _,
            kept: _,
            kept_weight: _,
            to_keep: _,
            may_be_due: _,
            places: _,
        } = self;
    }
}

impl<S: PurgeStore> Model for LockedBook<S> {
    ghost use Rattle.std.specs.Prelude.{◌≡◌, false};
    ghost use Rattle.std.specs.Coded.{codes};
    ghost use Rattle.cluster_master.specs.LockedBook.{LockedBookView, IsNothingDue};
    ghost use Rattle.cluster_master.specs.Weight.{weight_of_all};

    ghost Value = { LockedBookView S };

    ghost coded = { Prim.hlevel (codes) };

    ghost view = { λ locked. record {
      book = locked.book;
      kept = locked.kept.items;
      to_keep = locked.to_keep;
      may_be_due = locked.may_be_due;
    } };

    ghost invariant = { λ locked. (locked.may_be_due ≡ false → IsNothingDue locked.book.master)
        × (locked.weight ≡ weight_of_all locked.book.entries)
        × (locked.kept_weight ≡ weight_of_all locked.kept.items) };
}

/// Puts the book's entries behind those that are kept, or leaves both unchanged where there is no
/// memory. Where no entry is kept, this takes no memory.
fn keep<S: PurgeStore>(
    kept: &mut Vec<MasterEntry>,
    book: &mut MasterBook<S>,
) -> Result<(), AllocError>
    ensures kept { OnOk result ((kept.new.items ≡ kept.old.items ++ book.old.entries)
        × (book.new ≡ emptied book.old)) }
    ensures refused { OnErr result ((kept.new.items ≡ kept.old.items) × (book.new ≡ book.old)) }
    ensures memory { OnErr result (kept.old.items ≢ []) }
{
    if kept.is_empty() {
        *kept = book.take_entries();
        return Ok(());
    }
    kept.reserve(book.entries().len())?;
    let mut page = book.take_entries();
    match kept.append(&mut page) {
        Ok(()) => Ok(()),
        Err(_) => unreachable!(),
    }
}

impl<S: PurgeStore> LockedBook<S> {
    /// Files the page; or leaves everything unchanged, where there is no memory for what is kept.
    fn file_page(&mut self) -> Result<(), AllocError>
        ensures filed { OnOk result (self.new ≡ filed self.old) }
        ensures refused { OnErr result (self.new ≡ self.old) }
    {
        if has_place(self.to_keep, self.kept_weight) {
            keep(&mut self.kept, &mut self.book)?;
            self.kept_weight = self.kept_weight.saturating_add(self.weight);
            self.weight = 0;
            return Ok(());
        }
        let _page = self.book.take_entries();
        self.kept.clear();
        self.weight = 0;
        self.kept_weight = 0;
        self.to_keep = KeptEntries::Dropped;
        Ok(())
    }

    /// Whether the open page takes no entry more: it has 4,096, or they weigh as much as so many.
    fn is_full(&self) -> bool
        ensures value { result ≡ is_full_page self.now.book.entries }
        ensures room { IsFalse result → length self.now.book.entries < 4096 }
    {
        MOST_WEIGHT <= self.weight || MOST_ENTRIES <= self.book.entries().len()
    }

    /// Makes room for an entry: a page that is full is filed.
    fn make_ready(&mut self) -> Result<(), AllocError>
        ensures ready { OnOk result (self.new ≡ ready self.old) }
        ensures room { OnOk result (length self.new.book.entries < 4096) }
        ensures refused { OnErr result (self.new ≡ self.old) }
    {
        if self.is_full() {
            return self.file_page();
        }
        Ok(())
    }

    /// Makes one call of the master, which is entered with its answer; a page that is full is
    /// filed before it. Where there is no memory for that, or for the entry, the answer is
    /// `NoMemory`, the master is not called, and no entry is lost.
    pub(crate) fn call(&mut self, call: MasterCall) -> Result<MasterAnswer, MasterFault>
        ensures called { IsUnmade self.old self.new result
            ⊎ IsCalledAt (witness (S.is_honest self.old.book.master.store)
            (S.may_find self.old.book.master.store) (S.failed self.old.book.master.store))
            (witness (S.is_honest self.new.book.master.store)
            (S.may_find self.new.book.master.store) (S.failed self.new.book.master.store))
            self.old self.new call result }
        ensures told { IsToldOf call result }
    {
        self.make_ready()?;
        let place = self.places.draw();
        let octets = call_octets(&call);
        let before = self.book.entries().len();
        let answer = self.book.call(place, call);
        let is_entered = before < self.book.entries().len();
        let entered = added_weight(is_entered, octets, answer_octets(&answer));
        self.weight = self.weight.saturating_add(entered);
        self.may_be_due = may_be_due_after(&answer, self.may_be_due);
        answer
    }

    /// Whether a CLR may be due. This is no call, and makes no entry.
    pub(crate) fn may_be_due(&self) -> bool
        ensures value { result ≡ self.now.may_be_due }
        ensures nothing { result ≡ false → IsNothingDue self.now.book.master }
    {
        self.may_be_due
    }

    /// The CLR of a number, if it is pending: that of its purge, or that of its admission.
    pub(crate) fn message(&self, number: u32) -> Result<Option<Htcp>, AllocError>
        ensures clear { IfOk result (λ message. IfSome message (IsClearOf number)) }
        ensures fits { IfOk result (λ message. IfSome message Fits) }
    {
        self.book.message(number)
    }

    /// The members that a number needs and that have not acknowledged it; none where it is not
    /// pending.
    pub(crate) fn missing(&self, number: u32) -> MemberSet
        ensures { result ≡ missing_of self.now.book.master.nodes self.now.book.master.state.purges
            number }
    {
        self.book.purges().missing(self.book.nodes(), number)
    }

    /// The members that a number needs, whether it is pending or not.
    pub(crate) fn needed(&self, number: u32) -> MemberSet
        ensures { result ≡ needed_of self.now.book.master.nodes
            self.now.book.master.state.purges.admissions number }
    {
        self.book.purges().needed(self.book.nodes(), number)
    }

    /// The numbers of the pending purges that no member misses, ascending.
    pub(crate) fn settled(&self) -> Result<Vec<u32>, AllocError>
        ensures { IfOk result (λ numbers. numbers.items
            ≡ settled self.now.book.master.nodes self.now.book.master.state.purges) }
    {
        let mut numbers = Vec::new(self.alloc);
        for purge in self.book.purges().pending() {
            if self.missing(purge.number).count() == 0 {
                numbers.push(purge.number)?;
            }
        }
        Ok(numbers)
    }

    /// A copy of the pending purges and the admissions, with the last number.
    pub(crate) fn purges(&self) -> Result<Purges, AllocError>
        ensures { IfOk result (λ purges. purges ≡ self.now.book.master.state.purges) }
    {
        self.book.purges().copy(self.alloc)
    }

    /// Takes the entries since they were last taken, in their order. Where there is no memory to
    /// put the open page behind the others, it stays for the next time.
    pub(crate) fn take_entries(&mut self) -> Vec<MasterEntry>
        ensures taken { IsTaken self.old result.items self.new }
        ensures whole { self.old.kept ≡ [] → result.items ≡ self.old.book.entries }
    {
        // (a page that is not kept now stays in the book)
        if keep(&mut self.kept, &mut self.book).is_ok() {
            self.weight = 0;
        }
        self.kept_weight = 0;
        replace(&mut self.kept, Vec::new(self.alloc))
    }

    /// The book, with the entries of the pages that are kept, which stand before its own.
    pub(crate) fn into_book_and_kept(self) -> (MasterBook<S>, Vec<MasterEntry>)
        ensures { (result.0 ≡ self.book) × (result.1.items ≡ self.kept) }
    {
        let LockedBook {
            alloc: _,
            book,
            weight: _,
            kept,
            kept_weight: _,
            to_keep: _,
            may_be_due: _,
            places: _,
        } = self;
        (book, kept)
    }

    /// Whether entries are dropped: what is kept does not go back to the first call.
    pub(crate) fn has_forgotten(&self) -> bool
        ensures { result ≡ is_dropped self.now.to_keep }
    {
        matches!(self.to_keep, KeptEntries::Dropped)
    }
}
